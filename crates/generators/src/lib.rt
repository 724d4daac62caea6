//! Entries that are generated for a family: no confusion, and acyclicity.
#![tactic(auto)]

pub mod acyclic_gen;
pub mod noconf_gen;
