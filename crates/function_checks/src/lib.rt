//! The clauses of a function and of its helpers: how each is walked, and why a function is refused.
#![tactic(auto)]

pub mod function_clauses;
pub mod function_refusals;
pub mod function_walks;
pub mod walk_checks;
