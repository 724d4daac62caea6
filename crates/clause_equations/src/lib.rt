//! The equation of a clause: the function applied to terms as the clause's patterns show them, and its right side.
#![tactic(auto)]

mod clauses;
mod constants;
mod last_arguments;
pub mod laws;
mod parts;
pub mod shadow_vectors;
mod showing;
mod sides;

pub use clauses::{equation, equation_at};
pub use constants::{entry_number, in_signature};
pub use last_arguments::{applied_to_last, values_of_recursion};
pub use parts::{part_or, pats_at, side_or};
pub use showing::{with_shown, written};
pub use sides::{Equation, Site, left_side, right_side};
