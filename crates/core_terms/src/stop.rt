ghost use Rattle.core_terms.specs.declared.stop.Stop.TheVariants.{Memory};

use std::alloc::{AllocError, AllocFailed};
use thiserror::Error;

/// Why a call on terms stopped without its answer.
///
/// `Memory` is out of memory, `Fuel` a unit that is needed where none is left, `Deep` a term higher than 2,000 or kernel calls
/// nested deeper than that, `PoolFull` a node that is needed where the pool has no room.
#[derive(Clone, Copy, Debug, PartialEq, Eq, Error)]
pub enum Stop {
    #[error("Memory")]
    Memory,
    #[error("Fuel")]
    Fuel,
    #[error("Deep")]
    Deep,
    #[error("PoolFull")]
    PoolFull,
}

impl From<AllocError> for Stop {
    ghost use Rattle.std.specs.Prelude.{◌≡◌};

    ghost from_gives = { λ _ e. e ≡ Memory };

    fn from(_error: AllocError) -> Stop {
        Stop::Memory
    }
}

impl<T: Drop> From<AllocFailed<T>> for Stop {
    ghost use Rattle.std.specs.Prelude.{◌≡◌};

    ghost from_gives = { λ _ e. e ≡ Memory };

    fn from(_failed: AllocFailed<T>) -> Stop {
        Stop::Memory
    }
}
