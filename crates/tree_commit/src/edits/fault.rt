//! Why an edit is not made.

ghost use Rattle.std.specs.Prelude.{◌≡◌};
ghost use Rattle.tree_commit.specs.declared.edits.fault.EditFault.TheVariants.{NoMemory, Refused};

use crate::EditRefusal;
use std::alloc::{AllocError, AllocFailed};
use thiserror::Error;

/// Why an edit is not made. Whatever was to be edited is as it was.
#[derive(Clone, Copy, Debug, PartialEq, Eq, Error)]
pub enum EditFault {
    /// It may not be made.
    #[error("the edit is refused: {0}")]
    Refused(EditRefusal),
    /// There was no memory for it.
    #[error("out of memory")]
    NoMemory,
}

impl From<EditRefusal> for EditFault {
    ghost from_gives = { λ refusal fault. fault ≡ Refused refusal };

    fn from(refusal: EditRefusal) -> EditFault {
        EditFault::Refused(refusal)
    }
}

impl From<AllocError> for EditFault {
    ghost from_gives = { λ _ fault. fault ≡ NoMemory };

    fn from(_error: AllocError) -> EditFault {
        EditFault::NoMemory
    }
}

impl<T: Drop> From<AllocFailed<T>> for EditFault {
    ghost from_gives = { λ _ fault. fault ≡ NoMemory };

    fn from(_error: AllocFailed<T>) -> EditFault {
        EditFault::NoMemory
    }
}
