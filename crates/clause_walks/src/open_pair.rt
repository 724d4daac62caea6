use core_terms::{Pat, Term};

/// A pattern that asks for a constructor, and its term, whose head form is none.
#[derive(Clone, Copy)]
pub struct OpenPair<'a> {
    pub pat: &'a Pat,
    pub term: &'a Term,
}
