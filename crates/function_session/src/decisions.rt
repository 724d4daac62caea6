//! A decision of equality in a session: the names of its declaration, the decisions that were accepted before, and how its entry enters.
mod deciding;
mod decision;
mod declaring;
mod entering;
mod known;
mod naming;

pub use decision::Decision;
pub(crate) use declaring::declare_decision;
