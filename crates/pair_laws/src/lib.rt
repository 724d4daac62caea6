//! Laws of the entries of a function over a pair of positions.
#![tactic(auto)]

pub mod laws;
