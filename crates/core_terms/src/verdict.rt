use crate::{Items, Tele, Term};

/// Where in a term something is: child numbers from the root on.
///
/// Child 0 is the domain, the annotation or the function. Child 1 is the codomain, the body, the argument or the value
/// of a `let`, and child 2 the body of a `let`.
pub type Place = Items<u8>;

/// Why a checker rejects a term.
#[derive(Debug, Drop)]
pub enum Reason {
    Mismatch { found: Term, wanted: Term },
    NotAProduct { found: Term },
    NotASort { found: Term },
    NoSuchInstance,
    LevelTooHigh,
}

/// A checker's denial: the place in the given term, the context there, and the reason.
#[derive(Debug, Drop)]
pub struct Denial {
    pub place: Place,
    pub ctx: Tele,
    pub reason: Reason,
}

/// A checker's verdict on a term: its type, or a denial.
#[derive(Debug, Drop)]
pub enum Verdict {
    Yes(Term),
    No(Denial),
}
