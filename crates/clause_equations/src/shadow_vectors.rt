//! A clause without a proof: its leaves in a tree, and the arguments that an earlier clause takes from it.
mod absurd;
mod leaves;
mod vectors;

pub use absurd::some_absurd;
pub use leaves::{TreeLeaf, leaves_of};
pub use vectors::{all_reduced, vector_of};
