//! Abstraction over a scrutinee: a goal and its context, in which a new variable stands for each occurrence of a term.
//!
//! `occurrences` replaces the term, `needed` says where it stays, `orders` where the variables come after it, and `arranging` brings
//! types and goal into that order.
#![tactic(auto)]

mod abstracted;
mod abstracting;
mod arranging;
pub mod laws;
mod needed;
mod normal_forms;
mod occurrences;
mod opening;
mod orders;

pub use abstracted::Abstracted;
pub use abstracting::{abstract_over, abstract_over_with};
