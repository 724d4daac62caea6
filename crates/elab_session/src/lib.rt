//! One declaration at a time: it is resolved and checked phase by phase, and its entries are accepted, or it is refused with
//! the first reason in the written order.
//!
//! Definitions and families are added to a signature here. The entries of a core file enter by the same checks, and so do entries
//! that are made of a declaration. A refusal leaves the signature as it was, and holds its terms as texts.
#![tactic(auto)]

mod declaring;
mod entering;
pub mod laws;
mod raw_entry;
mod refusal;
mod refused_families;
mod refusing;
mod resolving;
mod shown;

pub use declaring::declare;
pub use entering::{enter_entry, enter_raw};
pub use raw_entry::{Definition, RawEntry};
pub use refusal::{FailingCall, PartName, Refusal, Text};
pub use refusing::{refusal as entry_refusal, stopped};
