use core_terms::{Items, Step, Tele, Term};
use unification::Why;

/// The outcome of a run of the rules, with its steps.
///
/// In `Solved`, `subst` has one term over the new context for each variable of the old one. The other two have the context in which
/// the run ends, and the sides of the equation at which it does; the last step of `Absurd` shows why.
#[derive(Debug, Drop)]
pub enum Outcome {
    Solved {
        steps: Items<Step>,
        ctx: Tele,
        subst: Tele,
    },
    Absurd {
        steps: Items<Step>,
        ctx: Tele,
        left: Term,
        right: Term,
    },
    Stuck {
        steps: Items<Step>,
        ctx: Tele,
        left: Term,
        right: Term,
        why: Why,
    },
}
