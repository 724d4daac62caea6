//! The terms of walks through case trees that prove the equation of a clause.
mod candidates;
pub mod laws;
mod proof;
mod terms;

pub use candidates::{Goal, candidate};
pub use proof::{Place, Proof};
pub use terms::{proof_names, proof_term};
