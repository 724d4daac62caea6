//! Lists of patterns: which terms they match, which they are apart from, and what two of them have in common.
pub mod laws;
mod matching;
mod meeting;
mod separation;

pub use matching::matches;
pub use meeting::meet;
pub use separation::apart;
