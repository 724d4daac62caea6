//! Proof-relevant unification: the equations between two lists of terms, solved without axiom K where that can be done.
//!
//! A state has a context and the equations that are left in it; a rule makes the next state of it, or shows that it is absurd.
//! `strategy` says which rule is tried when.
#![tactic(auto)]

mod constructors;
mod cycles;
mod deletions;
mod groups;
mod injecting;
mod occurrences;
mod solutions;
mod solving;
mod sticking;
mod strategy;
mod trials;
mod unifying;

pub use occurrences::dependants;
pub use solving::{new_context, new_order};
pub use unification::Why;
pub use unifying::{unify, unify_with};
