//! The case tree of a list of clauses.
//!
//! All clauses that are left at a node are worked. The first of them says where it is split: at the first open pair at whose
//! variable no run is stuck. Each constructor then gets a branch, by the outcome of its problem.
#![tactic(auto)]

mod branches;
mod nodes;
mod origins;
mod trees;

pub use trees::{split, split_with};
