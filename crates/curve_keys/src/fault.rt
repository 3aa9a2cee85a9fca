//! The causes for which keys are refused as a curve, and a text for each.

use thiserror::Error;

/// Why keys make no curve: the first of these that is so.
#[derive(Clone, Copy, Debug, PartialEq, Eq, Error)]
pub enum CurveFault {
    /// There are fewer than [`crate::FEWEST_KEYS`].
    #[error("a curve has at least 2 keys")]
    FewKeys,
    /// There are more than [`crate::MOST_KEYS`].
    #[error("a curve has at most 16 keys")]
    ManyKeys,
    /// A key's time is not greater than the one before.
    #[error("the times of a curve's keys do not rise")]
    TimesNotRising,
    /// The first key's time is not 0.
    #[error("the first key of a curve is not at time 0")]
    FirstNotZero,
}
