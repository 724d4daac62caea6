ghost use Rattle.elim.specs.declared.program_texts.status.Status.TheVariants.{NoMemory};

use core_terms::Stop;
use std::alloc::AllocError;

/// How a run ended; `code` has the status of the program.
#[derive(Clone, Copy, Debug, PartialEq, Eq)]
pub enum Status {
    Done,
    Refused,
    Usage,
    ReadFault,
    WriteFault,
    NoMemory,
}

impl Status {
    ghost use Rattle.std.specs.Prelude.{◌≡◌};
    ghost use Rattle.elim.specs.program_texts.Statuses.{code_of};

    /// The status of the program: from 0 for `Done` to 5 for `NoMemory`.
    pub fn code(self) -> u8
        ensures { result ≡ code_of self }
    {
        match self {
            Status::Done => 0,
            Status::Refused => 1,
            Status::Usage => 2,
            Status::ReadFault => 3,
            Status::WriteFault => 4,
            Status::NoMemory => 5,
        }
    }
}

impl From<AllocError> for Status {
    ghost use Rattle.std.specs.Prelude.{◌≡◌};

    ghost from_gives = { λ _ status. status ≡ NoMemory };

    fn from(_error: AllocError) -> Status {
        Status::NoMemory
    }
}

/// A call that prints stops only when it is out of memory.
impl From<Stop> for Status {
    ghost use Rattle.std.specs.Prelude.{◌≡◌};

    ghost from_gives = { λ _ status. status ≡ NoMemory };

    fn from(_stop: Stop) -> Status {
        Status::NoMemory
    }
}
