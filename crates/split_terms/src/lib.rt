//! The terms of runs of unification and of split nodes.
#![tactic(auto)]

mod branch_problems;
pub mod laws;
mod members;
mod methods;
mod names;
mod node;
mod rule_terms;
mod runs;
pub mod split_laws;
mod split_naming;
mod splitting;
mod steps;

pub use branch_problems::branch_standing;
pub use members::type_member;
pub use names::{names_joined, run_ended};
pub use node::{Node, node_at};
pub use runs::run_term;
pub use split_naming::{split_ended, split_names};
pub use splitting::{split_node, split_outline, split_term};
