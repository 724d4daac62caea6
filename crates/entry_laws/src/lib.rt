//! Laws of the entries of a function: their names differ, and each mentions earlier entries alone.
#![tactic(auto)]

pub mod draft_scopes;
pub mod entry_scopes;
pub mod laws;
pub mod name_laws;
pub mod node_roots;
pub mod order_scopes;
pub mod replay_laws;
