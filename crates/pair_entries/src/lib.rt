//! The entries of a function that is recursive on a pair of positions, from its case tree.
#![tactic(auto)]

mod copying;
mod entries;
mod first_step;
pub mod laws;
mod names;
mod pair_plan;
mod recursions;
mod second_motive;
mod second_step;

pub use entries::plan_entries;
pub use pair_plan::{PairPlan, pair_entries};
pub use recursions::{PairRecursion, pair_recursion};
