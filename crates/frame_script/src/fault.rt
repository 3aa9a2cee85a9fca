//! Why a script could not be read.

ghost use Rattle.std.specs.Prelude.{◌≡◌};
ghost use Rattle.frame_script.specs.declared.fault.ScriptFault.TheVariants as script;

use crate::Cause;
use std::alloc::AllocError;
use thiserror::Error;

/// Why a script could not be read.
#[derive(Clone, Copy, Debug, PartialEq, Eq, Error)]
pub enum ScriptFault {
    /// It is refused: the first line that is, counted from 1, and its cause. The line is 0 where the script is too
    /// long, and one more than there are where a part is missing.
    #[error("line {line}: {cause}")]
    Refused { line: u32, cause: Cause },
    /// There was no memory for it.
    #[error("out of memory")]
    NoMemory,
}

impl From<AllocError> for ScriptFault {
    ghost from_gives = { λ _ fault. fault ≡ script.NoMemory };

    fn from(_error: AllocError) -> ScriptFault {
        ScriptFault::NoMemory
    }
}
