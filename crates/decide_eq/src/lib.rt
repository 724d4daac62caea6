//! Decidable equality: which families are plain enough for it, and the entry that decides the equality of one.
#![tactic(auto)]

mod comparing;
mod decided_family;
mod entry;
mod fitting;
pub mod laws;
mod members;
mod methods;
mod naming;
mod plain;
mod statements;
mod stop;

pub use entry::decision_entry;
pub use plain::plain_family;
pub use stop::DecideStop;
