//! The entries of a function, from its case trees.
#![tactic(auto)]

mod candidates;
mod entries;
mod functions;
mod helpers;
pub mod laws;
mod motives;
mod nodes;
mod own_part;
mod steps;
mod telescopes;
mod tree_entries;
mod tree_naming;
mod trees;

pub use entries::translate;
pub use functions::recursive_entry;
pub use motives::{motive_body, motive_entry, motive_type};
pub use own_part::{first_count, own_goal, own_order, own_telescope, type_count};
pub use steps::{step_goal, step_telescope};
pub use telescopes::{goal_with_below, ordered_variables, with_below};
pub use tree_entries::{node_entry, table_from};
