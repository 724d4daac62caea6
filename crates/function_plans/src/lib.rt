//! The plan of a function by clauses: the position at which it is recursive, its tree and the trees of its helpers.
#![tactic(auto)]

mod choosing;
mod finishing;
mod helpers;
pub mod laws;
mod plans;
mod smallness;
mod trees;

pub use choosing::{chosen, position_chosen};
pub use finishing::own_finished;
pub use helpers::helpers_finished;
pub use plans::plan;
