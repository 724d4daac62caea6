ghost use Rattle.surface_syntax.specs.declared.stop.SyntaxStop.TheVariants.{Memory};

use std::alloc::{AllocError, AllocFailed};
use thiserror::Error;

/// Why a source file has no tokens or no declarations; each offset is one in bytes.
///
/// `Memory` is out of memory. `NotUtf8` has the first byte that begins no character, `BadToken` the first byte that begins no
/// token, `Syntax` the first token with which no source file continues, or the length of the file, and `Nested` the first token
/// of a term, pattern or clause that is inside 2,000 others.
#[derive(Clone, Copy, Debug, PartialEq, Eq, Error)]
pub enum SyntaxStop {
    #[error("Memory")]
    Memory,
    #[error("NotUtf8")]
    NotUtf8(u32),
    #[error("BadToken")]
    BadToken(u32),
    #[error("Nested")]
    Nested(u32),
    #[error("Syntax")]
    Syntax(u32),
}

impl From<AllocError> for SyntaxStop {
    ghost use Rattle.std.specs.Prelude.{◌≡◌};

    ghost from_gives = { λ _ e. e ≡ Memory };

    fn from(_error: AllocError) -> SyntaxStop {
        SyntaxStop::Memory
    }
}

impl<T: Drop> From<AllocFailed<T>> for SyntaxStop {
    ghost use Rattle.std.specs.Prelude.{◌≡◌};

    ghost from_gives = { λ _ e. e ≡ Memory };

    fn from(_failed: AllocFailed<T>) -> SyntaxStop {
        SyntaxStop::Memory
    }
}
