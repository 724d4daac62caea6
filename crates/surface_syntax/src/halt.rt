ghost use Rattle.surface_syntax.specs.declared.halt.Halt.TheVariants.{Memory};

use core_terms::Stop;
use std::alloc::{AllocError, AllocFailed};

/// Why the parser goes no further: the lexeme fits nowhere, or a term, pattern or clause that begins where so many lexemes are
/// left is inside too many others, or out of memory.
#[derive(Clone, Copy)]
pub(crate) enum Halt {
    Stuck,
    Over(u32),
    Memory,
}

impl From<AllocError> for Halt {
    ghost use Rattle.std.specs.Prelude.{◌≡◌};

    ghost from_gives = { λ _ e. e ≡ Memory };

    fn from(_error: AllocError) -> Halt {
        Halt::Memory
    }
}

impl<T: Drop> From<AllocFailed<T>> for Halt {
    ghost use Rattle.std.specs.Prelude.{◌≡◌};

    ghost from_gives = { λ _ e. e ≡ Memory };

    fn from(_failed: AllocFailed<T>) -> Halt {
        Halt::Memory
    }
}

/// The calls that give a `Stop` here take memory and nothing else.
impl From<Stop> for Halt {
    ghost use Rattle.std.specs.Prelude.{◌≡◌};

    ghost from_gives = { λ _ e. e ≡ Memory };

    fn from(_stop: Stop) -> Halt {
        Halt::Memory
    }
}
