//! The checker of terms, with units: over the ids of a store, and over trees, by way of a layer over the pool of the entries.
//!
//! Every call has one condition: its terms are well scoped in its context (`AreWellScoped` of `kernel_reduce`). What a call
//! answers is one more such term, by `proofs/WellScoped`.
#![tactic(auto)]

mod checking;
mod filled;
mod kernel;
pub mod laws;
mod leaf;
mod scope;
mod symbols;
mod type_id;
mod types;
mod typing;
mod typing_in;
mod verdict;
mod written_checks;
mod written_reduction;
mod written_terms;
mod written_typing;

pub use kernel::Kernel;
pub use typing::{check, infer, infer_sort};
pub use typing_in::{check_in, infer_in, infer_sort_in};
pub use verdict::VerdictIn;
