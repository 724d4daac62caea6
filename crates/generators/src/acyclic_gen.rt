//! Generated entries of each family without indices: a motive at each part of a term, `D!direct`, and that no term is a part of
//! itself, `D!acyclic`, as drafts.
mod acyclic_entries;
mod carrier;
mod claims;
mod direct_arguments;
mod direct_entries;
pub mod laws;
mod lengths;
mod methods;
mod naming;
mod pairings;
mod point;
mod pushing;
mod refuting;
mod statements;
mod stop;
mod tuples;

pub use acyclic_entries::acyclic_entry;
pub use carrier::{Carrier, carrier_at, carrier_of};
pub use direct_arguments::{Direct, directs};
pub use direct_entries::direct_entry;
pub use pairings::{Pairing, component, projection};
pub use point::{Head, Point, at_level};
pub use statements::{equal, no_part};
pub use stop::AcyclicStop;
