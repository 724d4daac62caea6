//! The term of a cycle, by acyclicity.
mod components;
mod cycles;
mod levels;
mod refutations;
mod said;
mod searching;
mod transports;

pub use cycles::{cycle_names, cycle_of_sides, cycle_term};
