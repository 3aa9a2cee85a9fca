//! When an animation runs, and at which time of its curve it is: exact, in whole numbers, without memory.
//!
//! A [`Timing`] keeps its parts within their ranges. At each local time it says whether the animation is yet
//! to come, runs or is over ([`Timing::phase`]), and at which time of the curve it is, if it shows at all
//! ([`Timing::curve_time`]). Contracts see a timing as its parts, and cite `phase` and `curve_time` of them.
//! Times are in microseconds; iterations and rate are in thousandths.
#![tactic(auto)]

pub mod direction;
pub mod fault;
pub mod fill;
pub mod iterations;
pub mod phase;
pub mod timing;
pub mod worked;

pub use direction::Direction;
pub use fault::{TimingFault, TimingField};
pub use fill::Fill;
pub use iterations::Iterations;
pub use phase::Phase;
pub use timing::Timing;

/// The longest duration of a curve, in microseconds: 2^36, some 19 hours.
pub const LONGEST_DURATION: u64 = 1 << 36;

/// The largest size of an offset, in microseconds: 2^40, some 12 days.
pub const LARGEST_OFFSET: u64 = 1 << 40;

/// The most iterations that are finite, in thousandths: a million.
pub const MOST_ITERATIONS: u32 = 1_000_000_000;

/// The last iteration start, in thousandths: a thousand iterations.
pub const LAST_ITERATION_START: u32 = 1_000_000;

/// The largest size of a rate, in thousandths: a thousand times the animation's own speed.
pub const LARGEST_RATE: u32 = 1_000_000;

/// The largest size of a local time, in microseconds: 2^52.
pub const LARGEST_LOCAL: u64 = 1 << 52;
