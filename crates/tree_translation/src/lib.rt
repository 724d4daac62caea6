//! The entries of a function: its case tree and those of its helpers, as terms with eliminators alone.
//!
//! `specs/` has the definitions. Each function of the module of laws has one law as its contract, and an empty body.
#![tactic(auto)]

pub mod laws;
pub mod structural_rec;
