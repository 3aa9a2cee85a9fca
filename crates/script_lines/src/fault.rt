//! Why a line could not be read.

ghost use Rattle.std.specs.Prelude.{◌≡◌};
ghost use Rattle.script_lines.specs.declared.fault.LineFault.TheVariants as line;

use frame_script::Cause;
use std::alloc::{AllocError, AllocFailed};

/// Why a line could not be read.
#[derive(Clone, Copy)]
pub enum LineFault {
    /// The line is refused for this cause.
    Refused(Cause),
    /// There was no memory for what the line says.
    NoMemory,
}

impl From<Cause> for LineFault {
    ghost from_gives = { λ cause fault. fault ≡ line.Refused cause };

    fn from(cause: Cause) -> LineFault {
        LineFault::Refused(cause)
    }
}

impl From<AllocError> for LineFault {
    ghost from_gives = { λ _ fault. fault ≡ line.NoMemory };

    fn from(_error: AllocError) -> LineFault {
        LineFault::NoMemory
    }
}

impl<T: Drop> From<AllocFailed<T>> for LineFault {
    ghost from_gives = { λ _ fault. fault ≡ line.NoMemory };

    fn from(_error: AllocFailed<T>) -> LineFault {
        LineFault::NoMemory
    }
}
