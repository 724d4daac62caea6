use core_sig::RawFamily;
use core_terms::{Name, Term};

/// A definition that is resolved or read.
#[derive(Drop)]
pub struct Definition {
    pub name: Name,
    pub ty: Term,
    pub body: Term,
}

/// An entry as a declaration gives it or a core file shows it.
#[derive(Drop)]
pub enum RawEntry {
    Family(RawFamily),
    Elim(u32, u8),
    AxiomK(u8, u8),
    Def(Definition),
}
