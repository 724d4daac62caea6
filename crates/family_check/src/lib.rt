//! Entries enter a signature: families, instances of eliminators and of axiom K, definitions.
#![tactic(auto)]

mod asking;
mod axioms;
mod constructors;
mod definitions;
mod eliminators;
mod entering;
mod families;
pub mod laws;
mod levels;
mod names;
mod stop;

pub use axioms::axiom_k;
pub use definitions::define;
pub use eliminators::instance;
pub use families::declare;
pub use stop::{FamilyStop, Site};
