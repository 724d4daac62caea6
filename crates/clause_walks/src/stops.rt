ghost use Rattle.core_terms.specs.declared.stop.Stop.TheVariants.{Memory};
ghost use Rattle.clause_walks.specs.declared.stops.TreeStop.TheVariants as stop;

use core_terms::{Pat, Stop, Tele, Term};
use std::alloc::{AllocError, AllocFailed};
use unification::Why;

/// Why a walk or a tree ends without its answer. Clauses have their numbers in their list.
///
/// `Stuck` has the end of the first run that was stuck, where unification was so at each variable that the clause asks for.
/// `Uncovered` has the terms for which no clause is left. `NotAbsurd` has a constructor that can be there, where the clause says
/// that none can. `Impossible` has the sides that show that the clause's own constructor can't be there. `WrongConstructor` has the
/// type of a variable, which is not the family of the clause's constructor. `Forced` has a pattern that asks for a constructor, and
/// the term, which is neither one nor a variable.
#[derive(Debug, Drop)]
pub enum TreeStop {
    Stop(Stop),
    Stuck {
        clause: u32,
        ctx: Tele,
        left: Term,
        right: Term,
        why: Why,
    },
    Uncovered {
        ctx: Tele,
        terms: Tele,
    },
    NotAbsurd {
        clause: u32,
        family: u32,
        con: u32,
    },
    Impossible {
        clause: u32,
        ctx: Tele,
        left: Term,
        right: Term,
    },
    WrongConstructor {
        clause: u32,
        ctx: Tele,
        ty: Term,
    },
    Forced {
        clause: u32,
        ctx: Tele,
        pat: Pat,
        term: Term,
    },
}

impl From<Stop> for TreeStop {
    ghost use Rattle.std.specs.Prelude.{◌≡◌};

    ghost from_gives = { λ e s. s ≡ stop.Stop e };

    fn from(stop: Stop) -> TreeStop {
        TreeStop::Stop(stop)
    }
}

impl From<AllocError> for TreeStop {
    ghost use Rattle.std.specs.Prelude.{◌≡◌};

    ghost from_gives = { λ _ s. s ≡ stop.Stop Memory };

    fn from(_error: AllocError) -> TreeStop {
        TreeStop::Stop(Stop::Memory)
    }
}

impl<T: Drop> From<AllocFailed<T>> for TreeStop {
    ghost use Rattle.std.specs.Prelude.{◌≡◌};

    ghost from_gives = { λ _ s. s ≡ stop.Stop Memory };

    fn from(_failed: AllocFailed<T>) -> TreeStop {
        TreeStop::Stop(Stop::Memory)
    }
}
