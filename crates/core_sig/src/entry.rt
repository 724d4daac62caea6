use crate::Family;
use core_terms::{Items, Name, Term};

/// One entry of a signature.
///
/// `Elim(f, m)` is the instance at level m of the eliminator of family f, and `AxiomK(i, m)` that of K of `Eq.i`. A
/// definition whose body is its own constant is provisional: it has a type and no body.
#[derive(Debug, Drop)]
pub enum Entry {
    Family(Family),
    Elim(u32, u8),
    AxiomK(u8, u8),
    Def { name: Name, ty: Term, body: Term },
}

/// The meaning of a name: the entry with a number, or a constructor of the family with the first number.
#[derive(Clone, Copy, Debug, PartialEq, Eq)]
pub enum Found {
    Entry(u32),
    Con(u32, u32),
}

/// An entry whose generated constants need not be in the signature yet.
///
/// `Const(base + i)` stands for the definition named `names[i]`, the names in the order of first mention, and each
/// smaller number is that of an entry. `base` is the length of the signature for which the draft was made.
#[derive(Debug, Drop)]
pub struct Draft {
    pub entry: Entry,
    pub base: u32,
    pub names: Items<Name>,
}
