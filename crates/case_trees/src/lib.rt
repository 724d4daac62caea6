//! Clauses of a function: the walk of a clause through its own patterns, and the case tree of a list of clauses.
//!
//! `specs/` has the definitions. Each function of the module of laws has one law as its contract, and an empty body.
#![tactic(auto)]

pub mod laws;
pub mod pattern_vectors;
