//! The unit of a progress. It is this project's own.

/// The number for 1 in a progress, in what an easing gives, and in a blend: 2^20.
pub const ONE: u32 = 1 << 20;
