//! The clauses of a function, walked one after the other: their own walks with their dots, their right sides, and the helpers over
//! their scrutinees, whose clauses are walked in turn.
mod giving;
mod helpers;
pub mod laws;
mod own;
mod parts;
mod scrutinees;
mod sides;
mod single;
mod walks;

pub use own::own_part;
pub use walks::walk_clauses;
