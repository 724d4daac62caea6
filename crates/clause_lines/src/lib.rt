//! The lines of the clauses of a function.
//!
//! The equation of a clause holds by conversion, or a proof of it enters the signature. Where the proof is rejected, an
//! earlier clause may shadow the clause: both match the same arguments, and the equation converts at each leaf of the
//! clause.
#![tactic(auto)]

mod clause;
mod judging;
pub mod laws;
mod leaves;
mod line;
mod names;
mod reporting;
mod shadowing;
mod sides;

pub use line::Line;
pub use reporting::report;
