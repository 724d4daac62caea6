//! Proof-relevant unification as pure definitions: its rules, the order in which they are tried, runs, and the laws that hold of
//! them.
//!
//! `specs/` has the definitions. Each function of the modules of laws has one law as its contract, and an empty body.
#![tactic(auto)]

pub mod rule_laws;
pub mod run_laws;
pub mod scope_laws;
pub mod solution_laws;
mod why;

pub use why::Why;
