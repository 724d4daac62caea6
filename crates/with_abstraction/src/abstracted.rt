use core_terms::{Items, Tele, Term};

/// A goal and its context in which a new variable stands for a scrutinee.
///
/// `tele` is the context with the new variable at place `at`, and `goal` is over it. `order` has one item for each other place: the
/// number of the variable of the old context that is there.
#[derive(Debug, Drop)]
pub struct Abstracted {
    pub tele: Tele,
    pub goal: Term,
    pub at: u32,
    pub order: Items<u32>,
}
