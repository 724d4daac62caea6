use core_terms::{Items, Tele, Term};

/// A right side or a scrutinee, in a clause of the function, which has number 0, or of helper k, which has number k. The terms are
/// the clause's own, the function's positions first.
#[derive(Debug, Drop)]
pub struct Use {
    pub function: u32,
    pub clause: u32,
    pub terms: Tele,
    pub body: Term,
}

/// A call that does not fit a position, with the function or helper and the clause that it is in. Positions count from 0.
#[derive(Debug, Drop)]
pub struct Failing {
    pub position: u32,
    pub function: u32,
    pub clause: u32,
    pub call: Term,
}

/// The function does not call itself; the first usable position; or, where there is none, the first failing call for each position
/// that admits recursion.
#[derive(Debug, Drop)]
pub enum Choice {
    NotRecursive,
    At(u32),
    NotSmaller(Items<Failing>),
}
