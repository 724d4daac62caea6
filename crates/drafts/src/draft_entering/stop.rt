ghost use Rattle.core_terms.specs.declared.stop.Stop.TheVariants.{Memory};
ghost use Rattle.drafts.specs.declared.draft_entering.stop.ReportStop.TheVariants as stop;

use core_terms::{Items, Name, Place, Stop, Tele, Term};
use std::alloc::{AllocError, AllocFailed};
use unification::Why;

/// The refusals of a report of a clause.
///
/// `Stop`: units, heights or memory ran out. `Stuck`: the walk through the tree does not go on. `Rejected`: the checker
/// rejects an entry; it holds the entry's name and its line, the place, and, in core text over the signature in which
/// this arose, the context and the reason.
#[derive(Debug, Drop)]
pub enum ReportStop {
    Stop(Stop),
    Stuck {
        ctx: Tele,
        left: Term,
        right: Term,
        why: Why,
    },
    Rejected {
        entry: Name,
        line: Items<u8>,
        place: Place,
        ctx: Items<u8>,
        reason: Items<u8>,
    },
}

impl From<Stop> for ReportStop {
    ghost use Rattle.std.specs.Prelude.{◌≡◌};

    ghost from_gives = { λ e s. s ≡ stop.Stop e };

    fn from(stop: Stop) -> ReportStop {
        ReportStop::Stop(stop)
    }
}

impl From<AllocError> for ReportStop {
    ghost use Rattle.std.specs.Prelude.{◌≡◌};

    ghost from_gives = { λ _ s. s ≡ stop.Stop Memory };

    fn from(_error: AllocError) -> ReportStop {
        ReportStop::Stop(Stop::Memory)
    }
}

impl<T: Drop> From<AllocFailed<T>> for ReportStop {
    ghost use Rattle.std.specs.Prelude.{◌≡◌};

    ghost from_gives = { λ _ s. s ≡ stop.Stop Memory };

    fn from(_failed: AllocFailed<T>) -> ReportStop {
        ReportStop::Stop(Stop::Memory)
    }
}
