//! Recursion over pairs of positions: which position follows one that admits recursion, which calls fit a pair, and the first pair
//! that each call fits.
#![tactic(auto)]

mod choice;
mod choosing;
mod failing;
mod fitting;
pub mod following;
pub mod laws;

pub use choice::{FailingPair, PairChoice};
pub use choosing::choose_pair;
