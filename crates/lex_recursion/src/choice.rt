use core_terms::{Items, Term};

/// A call that does not fit a pair of positions, with the clause that it is in. Positions count from 0.
#[derive(Debug, Drop)]
pub struct FailingPair {
    pub first: u32,
    pub second: u32,
    pub clause: u32,
    pub call: Term,
}

/// The first usable pair of positions; or, where there is none, the first failing call for each pair.
#[derive(Debug, Drop)]
pub enum PairChoice {
    At(u32, u32),
    Failing(Items<FailingPair>),
}
