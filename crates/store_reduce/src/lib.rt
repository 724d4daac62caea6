//! Reduction and comparison of terms in a store, with units: the definitions of `kernel_reduce`, in code over ids.
#![tactic(auto)]

mod calls;
mod comparing;
mod contracting;
mod form;
mod head_forms;
mod head_steps;
mod iota;
mod lookup;
mod nodes;
mod normalising;
mod ordering;
mod reducing;
mod several;
mod spines;
mod testing;
mod turns;

pub use calls::{convertible_in, head_step_in, normal_in, subtype_in, subtype_within_in, whnf_in};
