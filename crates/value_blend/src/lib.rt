//! What lies between two values: blends of numbers and of opacities, in whole numbers.
//!
//! A progress, in units of which [`anim_names::ONE`] is the whole way, says how far a value has come from one key to
//! the next. A blend at 0 is the value that it comes from, at `ONE` the value that it goes to, and beyond these it
//! goes on as far as the range of the value allows.
#![tactic(auto)]

pub mod blend;
pub mod ends;
pub mod number;
pub mod opacity;
pub mod worked;

pub use blend::Blend;
pub use number::blend_number;
pub use opacity::Opacity;

/// The largest size of a progress: sixteen times [`anim_names::ONE`], 2^24. An easing leaves the way by less than that.
pub const LARGEST_PROGRESS: u32 = 1 << 24;

/// The largest size of a number of an operation: 2^40.
pub const LARGEST_NUMBER: u64 = 1 << 40;

/// The opacity of what hides all behind it, in millionths.
pub const FULL_OPACITY: u32 = 1_000_000;
