//! The parts of a function by clauses that are walked: its own part and its helpers, with the telescopes that they
//! start from.
mod parts;
mod types;

pub use parts::{Given, Opened, Session, Walked};
pub use types::{GREATEST_LEVEL, after_domains, first_domains, function_level};
