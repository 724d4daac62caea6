use core_terms::{Items, Name, Tele, Term};

/// Whether a constructor argument is recursive, and then the number of its inner arguments.
#[derive(Clone, Copy, Debug, PartialEq, Eq)]
pub enum ArgKind {
    Plain,
    Recursive(u32),
}

/// A constructor argument or an index: its type, and the level of that type.
#[derive(Debug, Drop)]
pub struct Arg {
    pub ty: Term,
    pub level: u8,
    pub kind: ArgKind,
}

/// A constructor. The type of an argument is over the parameters and the arguments before it, the targets are over the
/// parameters and all arguments.
#[derive(Debug, Drop)]
pub struct Constructor {
    pub name: Name,
    pub args: Items<Arg>,
    pub targets: Tele,
}

/// An inductive family (Dybjer, "Inductive families", 1994). Index types are over the parameters and the indices
/// before them.
#[derive(Debug, Drop)]
pub struct Family {
    pub name: Name,
    pub params: Tele,
    pub indices: Items<Arg>,
    pub level: u8,
    pub cons: Items<Constructor>,
}
