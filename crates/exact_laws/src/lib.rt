//! Laws of the code that makes a function's entries: it answers what is defined, and refuses only what is too high.
#![tactic(auto)]

pub mod deep_laws;
pub mod helper_scopes;
pub mod leaf_laws;
pub mod own_scopes;
pub mod part_laws;
pub mod run_laws;
pub mod step_scopes;
pub mod translation_laws;
