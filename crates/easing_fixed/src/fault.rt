//! The causes for which the numbers of a step function or a cubic are refused.

use thiserror::Error;

/// Why numbers make no easing.
#[derive(Clone, Copy, Debug, PartialEq, Eq, Error)]
pub enum EasingFault {
    /// There are 1 to [`crate::MOST_INTERVALS`] intervals, and at least 2 where nothing jumps at the ends.
    #[error("the number of steps is out of range")]
    BadCount,
    /// x1 and x2 are 0 to [`crate::END`].
    #[error("an x of a control point is out of range")]
    XOutOfRange,
    /// y1 and y2 are at most [`crate::LARGEST_Y`] in size.
    #[error("a y of a control point is out of range")]
    YOutOfRange,
}
