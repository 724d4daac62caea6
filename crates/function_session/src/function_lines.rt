//! A function by clauses, from its resolved form to the lines of its clauses.
mod entering;
mod functions;
mod levels;
mod lines;
mod planning;
mod refusing;
mod reporting;
mod values;

pub(crate) use entering::enter_opened;
pub(crate) use functions::function;
pub use lines::ClauseLine;
