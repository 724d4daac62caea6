//! Families that refer to each other: one family over tags that stands for all of them, and induction over them.
#![tactic(auto)]

mod bounding;
mod equations;
mod fitting;
mod hypotheses;
mod inductions;
pub mod laws;
mod levels;
mod members;
mod naming;
mod numbers;
mod packed;
mod packed_entries;
mod packed_family;
mod packed_types;
mod packing;
mod positions;
mod recursions;
mod selecting;
mod stop;
mod telescopes;

pub use equations::induction_equation;
pub use inductions::induction_entries;
pub use packed::Packed;
pub use packing::pack;
pub use stop::MutualStop;
