ghost use Rattle.core_terms.specs.declared.stop.Stop.TheVariants.{Memory};
ghost use Rattle.family_check.specs.declared.stop.FamilyStop.TheVariants as stop;

use core_terms::{Denial, Stop};
use std::alloc::{AllocError, AllocFailed};

/// The written part of a denial. Parameters are counted from 1, constructors have their numbers.
#[derive(Clone, Copy, Debug, PartialEq, Eq)]
pub enum Site {
    Ty,
    Body,
    Param(u32),
    Con(u32),
}

/// Why an entry does not enter.
///
/// `NotPositive` has a constructor and its argument, counted from 1, or 0 for its result. `TooLarge` has a constructor and
/// its argument, or an index where there is no constructor, counted from 1. `BadFamily` is a type that is no products
/// ending in a sort, `Duplicate` a name that is known or occurs twice.
#[derive(Debug, Drop)]
pub enum FamilyStop {
    Stop(Stop),
    Denied { part: Site, denial: Denial },
    NotPositive(u32, u32),
    TooLarge(Option<u32>, u32),
    BadFamily,
    Duplicate,
}

impl From<Stop> for FamilyStop {
    ghost use Rattle.std.specs.Prelude.{◌≡◌};

    ghost from_gives = { λ e s. s ≡ stop.Stop e };

    fn from(stop: Stop) -> FamilyStop {
        FamilyStop::Stop(stop)
    }
}

impl From<AllocError> for FamilyStop {
    ghost use Rattle.std.specs.Prelude.{◌≡◌};

    ghost from_gives = { λ _ s. s ≡ stop.Stop Memory };

    fn from(_error: AllocError) -> FamilyStop {
        FamilyStop::Stop(Stop::Memory)
    }
}

impl<T: Drop> From<AllocFailed<T>> for FamilyStop {
    ghost use Rattle.std.specs.Prelude.{◌≡◌};

    ghost from_gives = { λ _ s. s ≡ stop.Stop Memory };

    fn from(_failed: AllocFailed<T>) -> FamilyStop {
        FamilyStop::Stop(Stop::Memory)
    }
}
