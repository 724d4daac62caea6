//! The theory: terms, families, conversion, derivations and well-formed signatures as pure data, and the laws that
//! hold of them. `specs/` has the definitions; each function here has one law as its contract, and an empty body.
#![tactic(auto)]

pub mod axiom_k_laws;
pub mod conversion_laws;
pub mod instance_laws;
pub mod prelude_laws;
pub mod scope_laws;
pub mod signature_laws;
pub mod signature_scope_laws;
pub mod sort_laws;
pub mod term_laws;
pub mod typing_laws;
