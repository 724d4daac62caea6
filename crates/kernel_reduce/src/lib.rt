//! Reduction and comparison of terms as definitions, with units, and the laws about them; and what a kernel reads of a signature.
//!
//! A term that is reduced or compared is scoped, and few variables are free in it (`specs/WellScoped`). A caller shows it for the terms of
//! a context, and carries it on to their parts, under binders and to answers by the lemmas of `proofs/WellScoped`.
#![tactic(auto)]

mod identity;
pub mod laws;
mod lookup;

pub use identity::has_k;
pub use lookup::{constructor, eliminator_arity, family, takes};

/// How many calls may be open at once.
pub const NESTING: u32 = 2000;
