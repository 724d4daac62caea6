use core_sig::RawFamily;
use core_terms::{Name, Term};

/// An entry as its line has it, before a record is made of a family.
#[derive(Drop)]
pub enum Line {
    Family(RawFamily),
    Elim(u32, u8),
    AxiomK(u8, u8),
    Def { name: Name, ty: Term, body: Term },
}
