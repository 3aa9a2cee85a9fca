//! Timelines: what time an animation's clock shows at a tick.
//!
//! A timeline is the one number at which it shows 0, and its time may be negative. Times are in microseconds.
#![tactic(auto)]

pub mod timeline;
pub mod worked;

pub use timeline::Timeline;

/// The last tick at which a frame may be drawn, at which a timeline may show 0, and from which a model may be told to
/// count, in microseconds: 2^50, some 35 years.
pub const LAST_TIME: u64 = 1 << 50;
