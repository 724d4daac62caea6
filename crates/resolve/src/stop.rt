ghost use Rattle.std.specs.Prelude.{◌≡◌};
ghost use Rattle.resolve.specs.declared.stop.ResolveStop.TheVariants.{Memory};

use core_terms::{Name, Stop};
use std::alloc::{AllocError, AllocFailed};
use thiserror::Error;

/// Why a written name or clause can't be resolved, with the offset and the text of the name at which that shows.
///
/// `Memory` is out of memory, and `Deep` a term that is higher than 2,000. `UnknownName` is a name that nothing has, `Duplicate`
/// a declared name that is taken, `WrongArity` a clause or a constructor with too many or too few patterns, and `NotLinear` a
/// variable that occurs a second time among the patterns of a clause.
#[derive(Debug, Drop, Error)]
pub enum ResolveStop {
    #[error("Memory")]
    Memory,
    #[error("Deep")]
    Deep,
    #[error("UnknownName")]
    UnknownName(u32, Name),
    #[error("Duplicate")]
    Duplicate(u32, Name),
    #[error("WrongArity")]
    WrongArity(u32, Name),
    #[error("NotLinear")]
    NotLinear(u32, Name),
}

impl From<AllocError> for ResolveStop {
    ghost from_gives = { λ _ e. e ≡ Memory };

    fn from(_error: AllocError) -> ResolveStop {
        ResolveStop::Memory
    }
}

impl<T: Drop> From<AllocFailed<T>> for ResolveStop {
    ghost from_gives = { λ _ e. e ≡ Memory };

    fn from(_failed: AllocFailed<T>) -> ResolveStop {
        ResolveStop::Memory
    }
}

impl From<Stop> for ResolveStop {
    ghost use Rattle.resolve.specs.Answers.{IsStop};

    ghost from_gives = { IsStop };

    fn from(stop: Stop) -> ResolveStop {
        match stop {
            Stop::Deep => ResolveStop::Deep,
            _ => ResolveStop::Memory,
        }
    }
}
