//! The places of a walk of a clause's terms through a case tree: after the solution of a problem, and in the branch of a constructor.
mod moving;
mod origins;

pub use moving::moved_place;
pub use origins::{value_at, values_in_branch};
