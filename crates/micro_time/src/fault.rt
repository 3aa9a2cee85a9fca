//! The causes for which numbers are refused as a timing: the first field that is out of range, or endless iterations
//! at a negative rate.

use thiserror::Error;

/// A number of a timing, in the order in which they are judged.
#[derive(Clone, Copy, Debug, PartialEq, Eq)]
pub enum TimingField {
    /// 1 to [`crate::LONGEST_DURATION`] microseconds.
    Duration,
    /// At most [`crate::LARGEST_OFFSET`] microseconds in size.
    Offset,
    /// 0 to [`crate::MOST_ITERATIONS`] thousandths, or infinite.
    Iterations,
    /// 0 to [`crate::LAST_ITERATION_START`] thousandths of an iteration.
    IterationStart,
    /// At most [`crate::LARGEST_RATE`] thousandths in size, and not 0.
    Rate,
}

/// Why numbers make no timing.
#[derive(Clone, Copy, Debug, PartialEq, Eq, Error)]
pub enum TimingFault {
    /// This field is the first that is outside of its range.
    #[error("out of range: {0:?}")]
    OutOfRange(TimingField),
    /// Infinite iterations have no end that a negative rate could count from.
    #[error("infinite iterations can't run at a negative rate")]
    InfiniteReverse,
}
