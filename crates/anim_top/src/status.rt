//! The statuses with which the program ends, and the number of each. Ending the process is left to `main`.

use frame_script::Cause;

/// How the program ended: a value, and not an act. `main` ends the process with its number.
///
/// It does not say what went wrong outside; the program's answer depends only on which side failed.
#[derive(Clone, Copy, PartialEq, Eq)]
pub enum Status {
    /// The whole output was written.
    Done,
    /// The arguments are no command that the program knows. Nothing was read or written.
    Usage,
    /// The script is refused at this line, for this cause, and the refusal was written.
    Refused { line: u32, cause: Cause },
    /// The source failed. Nothing was written, and the source lost only what was read.
    ReadFault,
    /// The sink failed. What it took is a front of the output.
    WriteFault,
    /// Memory ran out. Nothing was written, and the source lost only what was read.
    NoMemory,
}

impl Status {
    ghost use Rattle.std.specs.Prelude.{◌≡◌};
    ghost use Rattle.anim_top.specs.Statuses.{number_of};

    /// The number that a process ends with.
    pub fn number(&self) -> u8
        ensures { result ≡ number_of self.now }
    {
        match self {
            Status::Done => 0,
            Status::Usage => 2,
            Status::Refused { .. } => 3,
            Status::ReadFault => 4,
            Status::WriteFault => 5,
            Status::NoMemory => 6,
        }
    }
}
