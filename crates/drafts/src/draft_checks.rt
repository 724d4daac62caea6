//! Tests of drafts, and of the signatures that they enter.
mod enterable;
pub mod laws;
mod marks;

pub use enterable::is_enterable;
pub use marks::is_unmarked;
