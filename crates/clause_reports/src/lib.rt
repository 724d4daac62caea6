//! The report of each clause of a function: its equation, a proof of it, or the earlier clause that shadows it.
#![tactic(auto)]

pub mod elaboration;
pub mod laws;
