ghost use Rattle.elim_ports.specs.declared.port_error.PortError.TheVariants.{Memory};

use std::alloc::AllocError;
use thiserror::Error;

/// Why a read or a write moved nothing.
///
/// `Fault` is a failure of the device, and raises the count of faults; `Memory` is out of memory.
#[derive(Clone, Copy, Debug, PartialEq, Eq, Error)]
pub enum PortError {
    #[error("Fault")]
    Fault,
    #[error("Memory")]
    Memory,
}

impl From<AllocError> for PortError {
    ghost use Rattle.std.specs.Prelude.{◌≡◌};

    ghost from_gives = { λ _ e. e ≡ Memory };

    fn from(_error: AllocError) -> PortError {
        PortError::Memory
    }
}
