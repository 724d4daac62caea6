//! Telescopic equality: equations between two lists of terms of one telescope, and their consequences.
#![tactic(auto)]

mod congruences;
mod dependences;
mod elimination;
mod environment;
mod equation_lists;
mod goals;
mod item;
mod levels;
mod lists;
mod reflexivities;
pub mod reflexivity_laws;
mod runs;
pub mod scope_laws;
mod sides;
mod telescopic;
mod transports;
mod typing;

pub use congruences::{cong, cong_whole};
pub use dependences::has_variable;
pub use elimination::{telescopic_j, telescopic_j_whole};
pub use equation_lists::{tele_equations, tele_equations_whole};
pub use item::Item;
pub use levels::{has_level, is_among, place_in};
pub use reflexivities::{refl_list, refl_list_whole};
pub use runs::{variables, variables_of_run, with_variables};
pub use transports::transport;
