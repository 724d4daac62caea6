//! Drafts: how one enters a signature, which signatures drafts may enter, and the tests of this.
#![tactic(auto)]

pub mod draft_checks;
pub mod draft_entering;
pub mod entering_laws;
