//! Why a function by clauses is refused, with the evidence.
mod denials;
mod refusal;
mod trees;

pub use denials::{granted, ill_typed, level_too_high};
pub use refusal::{FailingCall, FunctionRefusal, Owner, Text, WrittenPart, or_memory, owner_of};
pub use trees::ended;
