ghost use Rattle.core_text.specs.declared.halt.Halt.TheVariants.{Memory};

use core_terms::Stop;
use std::alloc::{AllocError, AllocFailed};

/// Where reading stops, by the number of bytes that are left from there on.
///
/// `Nested` is a term inside too many terms or one that is too high. `Wrong` is a byte with which no core file goes on,
/// or the first byte of a name that may not be there.
#[derive(Clone, Copy, Debug, PartialEq, Eq)]
pub enum Halt {
    Memory,
    Nested(usize),
    Wrong(usize),
}

impl From<AllocError> for Halt {
    ghost use Rattle.std.specs.Prelude.{◌≡◌};

    ghost from_gives = { λ _ e. e ≡ Memory };

    fn from(_error: AllocError) -> Halt {
        Halt::Memory
    }
}

impl<T: Drop> From<AllocFailed<T>> for Halt {
    ghost use Rattle.std.specs.Prelude.{◌≡◌};

    ghost from_gives = { λ _ e. e ≡ Memory };

    fn from(_failed: AllocFailed<T>) -> Halt {
        Halt::Memory
    }
}

impl From<Stop> for Halt {
    ghost use Rattle.std.specs.Prelude.{◌≡◌};

    ghost from_gives = { λ _ e. e ≡ Memory };

    fn from(_stop: Stop) -> Halt {
        Halt::Memory
    }
}
