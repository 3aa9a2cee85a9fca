//! The causes for which a line of a script is refused, and a text for each. Which of them comes first is decided
//! where lines are read.

use std::error::Error;
use std::fmt;
use std::fmt::{Display, Formatter, Write};
use tree_commit::EditRefusal;

/// What is wrong with a script.
#[derive(Clone, Copy, Debug, PartialEq, Eq)]
pub enum Cause {
    /// The step may not be made where it stands. A limit of steps, of commits or of frames is among these.
    Edit(EditRefusal),
    /// The first line is not `anim 1`.
    BadHeader,
    /// The line may not stand where it stands, it has another number of fields, or a field is none of its keywords.
    BadLine,
    /// A number is not spelled as one, or it is out of range.
    BadNumber,
    /// A model has too few or too many keys, or their times do not rise from 0.
    BadCurve,
    /// A number of a timing is out of range, or infinite iterations have a negative rate.
    BadTiming,
    /// An easing is not spelled as one, or a number of it is out of range.
    BadEasing,
    /// A tick is earlier than the one before it.
    TimeBack,
    /// The word has another letter than M and C, or not one for each step of its lane.
    BadWord,
    /// The lines end before the script does.
    MissingPart,
    /// There are more than [`crate::MOST_BYTES`].
    TooLong,
}

impl Display for Cause {
    fn fmt<W: Write>(&self, f: &mut Formatter<W>) -> fmt::Result {
        f.write_str(match self {
            Cause::Edit(refusal) => return refusal.fmt(f),
            Cause::BadHeader => "the script does not begin with a header that is known",
            Cause::BadLine => "the line is not of a form that may stand here",
            Cause::BadNumber => "a number is not spelled as one, or out of range",
            Cause::BadCurve => "the keys make no curve",
            Cause::BadTiming => "the numbers make no timing",
            Cause::BadEasing => "the field is no easing",
            Cause::TimeBack => "the tick is earlier than the one before it",
            Cause::BadWord => "the word is not one of the two lanes",
            Cause::MissingPart => "the script is not complete",
            Cause::TooLong => "the script is too long",
        })
    }
}

impl Error for Cause {}
