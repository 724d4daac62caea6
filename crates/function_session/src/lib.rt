//! One declaration at a time, also a function by clauses: it is resolved and worked on phase by phase, and its entries are accepted
//! with a line for each clause, or it is refused with the first reason in the written order.
//!
//! A `Session` holds the prelude and the entries that were accepted, and which of them are decisions of equality. Each declaration may
//! spend the same number of units. A refusal leaves the session as it was. The entries of a core file enter by the same checks.
#![tactic(auto)]

mod accepted;
mod decisions;
mod declaring;
mod elaborating;
pub mod equation_laws;
pub mod function_laws;
pub mod function_lines;
mod functions;
pub mod laws;
mod mutual_families;
pub mod plan_laws;
mod refusing;
mod session;

pub use accepted::Accepted;
pub use decisions::Decision;
pub use session::Session;
