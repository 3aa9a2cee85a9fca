//! The causes for which operations are refused as a list: too many of them, or a number out of range.

use thiserror::Error;

/// Why operations make no list.
#[derive(Clone, Copy, Debug, PartialEq, Eq, Error)]
pub enum ListFault {
    /// There are more than [`crate::MOST_OPERATIONS`].
    #[error("a list has at most 8 operations")]
    TooMany,
    /// A number is above [`value_blend::LARGEST_NUMBER`] in size.
    #[error("a number of an operation is out of range")]
    OutOfRange,
    /// There was no memory for them.
    #[error("out of memory")]
    NoMemory,
}
