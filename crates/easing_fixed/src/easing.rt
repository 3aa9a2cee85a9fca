//! The easings that a script can name: linear, steps and cubics, with CSS's keywords, and the value of each at a
//! progress.

ghost use Rattle.std.specs.Prelude.{◌≡◌, ◌*◌, ◌≤◌, pos, unsigned_abs, IfOk};
ghost use Rattle.std.specs.Result.{result_err};
ghost use Rattle.easing_fixed.specs.Cubics.{cubic_parts, cubic_refusal};
ghost use Rattle.easing_fixed.specs.Easings.{IsEasing, eased};
ghost use Rattle.easing_fixed.specs.Steps.{step_parts, step_refusal};

use crate::{CubicShape, EasingFault, StepPosition, StepShape};
use anim_names::ONE;

/// How a progress is bent, after CSS Easing Functions Level 1.
#[derive(Clone, Copy, PartialEq, Eq)]
pub enum Easing {
    /// Not at all.
    Linear,
    /// In jumps.
    Steps(StepShape),
    /// Along a cubic Bézier curve.
    Cubic(CubicShape),
}

impl Easing {
    /// A step function of 1 to [`crate::MOST_INTERVALS`] intervals, or of 2 at least where it jumps between them alone.
    pub fn steps(count: u32, position: StepPosition) -> Result<Easing, EasingFault>
        ensures refused { result_err result ≡ step_refusal (step_parts count position) }
        ensures parts { IfOk result (λ easing. easing ≡ Easing.Steps (step_parts count position)) }
    {
        Ok(Easing::Steps(StepShape::new(count, position)?))
    }

    /// A cubic Bézier curve with the control points (x1, y1) and (x2, y2), in millionths: each x from 0 to
    /// [`crate::END`], each y at most [`crate::LARGEST_Y`] in size. The x's are judged first.
    pub fn cubic(x1: i64, y1: i64, x2: i64, y2: i64) -> Result<Easing, EasingFault>
        ensures refused { result_err result ≡ cubic_refusal (cubic_parts x1 y1 x2 y2) }
        ensures parts { IfOk result (λ easing. easing ≡ Easing.Cubic (cubic_parts x1 y1 x2 y2)) }
    {
        Ok(Easing::Cubic(CubicShape::new(x1, y1, x2, y2)?))
    }

    /// The keyword `ease`.
    pub fn ease() -> Easing
        ensures { result ≡ Easing.Cubic (cubic_parts (pos 250000) (pos 100000) (pos 250000) (pos 1000000)) }
    {
        Easing::Cubic(CubicShape::of(250_000, 100_000, 250_000, 1_000_000))
    }

    /// The keyword `ease-in`.
    pub fn ease_in() -> Easing
        ensures { result ≡ Easing.Cubic (cubic_parts (pos 420000) (pos 0) (pos 1000000) (pos 1000000)) }
    {
        Easing::Cubic(CubicShape::of(420_000, 0, 1_000_000, 1_000_000))
    }

    /// The keyword `ease-out`.
    pub fn ease_out() -> Easing
        ensures { result ≡ Easing.Cubic (cubic_parts (pos 0) (pos 0) (pos 580000) (pos 1000000)) }
    {
        Easing::Cubic(CubicShape::of(0, 0, 580_000, 1_000_000))
    }

    /// The keyword `ease-in-out`.
    pub fn ease_in_out() -> Easing
        ensures { result ≡ Easing.Cubic (cubic_parts (pos 420000) (pos 0) (pos 580000) (pos 1000000)) }
    {
        Easing::Cubic(CubicShape::of(420_000, 0, 580_000, 1_000_000))
    }

    /// The keyword `step-start`.
    pub fn step_start() -> Easing
        ensures { result ≡ Easing.Steps (step_parts 1 StepPosition.JumpStart) }
    {
        Easing::Steps(StepShape::of(1, StepPosition::JumpStart))
    }

    /// The keyword `step-end`.
    pub fn step_end() -> Easing
        ensures { result ≡ Easing.Steps (step_parts 1 StepPosition.JumpEnd) }
    {
        Easing::Steps(StepShape::of(1, StepPosition::JumpEnd))
    }

    /// Does nothing. What is true of every easing, its clause says of this one.
    pub fn vouch(&self)
        ensures { IsEasing self.now }
    {
        match self {
            Easing::Linear => {}
            Easing::Steps(shape) => {
                let _ = shape.count();
            }
            Easing::Cubic(shape) => {
                let _ = shape.x1();
            }
        }
    }

    /// What the easing gives at a progress p from 0 to [`ONE`], in the same unit. A cubic may leave that range, by
    /// ten times [`ONE`] at most.
    #[tactic(auto, unfolding(crate::specs::Easings::eased))]
    pub fn value(&self, p: u32) -> i64
        requires { p ≤ ONE }
        ensures value { result ≡ eased self.now p }
        ensures size { unsigned_abs result ≤ 10 * ONE }
    {
        match self {
            Easing::Linear => i64::from(p),
            Easing::Steps(shape) => i64::from(shape.value(p)),
            Easing::Cubic(shape) => shape.value(p),
        }
    }

    /// The same as [`Easing::value`], faster where the easing is a cubic.
    #[tactic(auto, unfolding(crate::specs::Easings::eased))]
    pub fn quick_value(&self, p: u32) -> i64
        requires { p ≤ ONE }
        ensures value { result ≡ eased self.now p }
        ensures size { unsigned_abs result ≤ 10 * ONE }
    {
        match self {
            Easing::Cubic(shape) => shape.quick_value(p),
            Easing::Linear | Easing::Steps(_) => self.value(p),
        }
    }
}
