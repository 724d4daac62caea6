//! The walk of a clause's terms through the tree of its function.
//!
//! It goes into the branch of each constructor, and splits each variable of the clause's context at which the tree does. At each leaf the
//! equation of the clause has to hold by reflexivity.
#![tactic(auto)]

pub mod laws;
mod leaves;
mod nodes;
mod places;
pub mod proof_places;
pub mod proof_terms;
mod runs;
mod scopes;
mod starts;
mod walking;

pub use leaves::{Leaf, leaves_in};
pub use starts::{equation_proof, equation_proof_with};
