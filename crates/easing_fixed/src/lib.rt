//! Step and cubic Bézier easing in fixed point: exact, in whole numbers, without memory.
//!
//! An [`Easing`] takes a progress from 0 to [`anim_names::ONE`], which stands for 1, and gives a whole number in the same
//! unit. Its shapes keep their numbers within their ranges. Contracts see a shape as its numbers and cite
//! `eased`; that the cubic's place is the greatest one is the law of [`laws::place_is_greatest`].
#![tactic(auto)]

pub mod cubic;
mod curve;
pub mod easing;
pub mod evaluator;
pub mod fault;
pub mod laws;
pub mod position;
mod search;
mod start;
pub mod step;
pub mod worked;

pub use cubic::CubicShape;
pub use easing::Easing;
pub use evaluator::{EasingFunction, Evaluator};
pub use fault::EasingFault;
pub use position::StepPosition;
pub use step::StepShape;

/// The most intervals of a step function.
pub const MOST_INTERVALS: u32 = 1_000_000;

/// The number for 1 in the numbers of a control point, which are in millionths. Every curve ends at (END, END), and
/// no control point is farther across.
pub const END: u32 = 1_000_000;

/// The largest size of how high a control point is: ten times [`END`].
pub const LARGEST_Y: u32 = 10_000_000;
