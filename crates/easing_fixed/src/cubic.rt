//! Cubic Bézier curves in fixed point: their height at a progress, by a plain search for the place and by a quick
//! one. Both give the same.

ghost use Rattle.std.specs.Prelude.{◌≡◌, ◌*◌, ◌≤◌, pos, unsigned_abs, IsFalse, IfOk, MatchResult};
ghost use Rattle.std.specs.Result.{result_err};
ghost use Rattle.easing_fixed.specs.Cubics.{cubic_parts, cubic_refusal, IsCubic, is_x, is_y, cubic_value};

use crate::search::quick_place;
use crate::start::{START_COUNT, starts};
use crate::{END, EasingFault, LARGEST_Y, curve};
use anim_names::ONE;
use std::marker::Model;

/// A cubic Bézier curve from (0, 0) to (1, 1) by its two control points, after CSS Easing Functions Level 1.
///
/// The numbers of the control points are in millionths. The curve gives a progress p the height at which it is p
/// far across. That the place on the curve is a whole number of steps of which there are [`ONE`], the greatest one
/// that is not past p, and that the height is rounded down, are this project's own.
#[derive(Clone, Copy)]
#[derive_where(Debug, PartialEq, Eq)]
pub struct CubicShape {
    x1: u32,
    y1: i32,
    x2: u32,
    y2: i32,
    // How far across the curve is at the ends of sixteen intervals, in the unit of sixteen steps.
    #[derive_where(skip)]
    starts: [u32; START_COUNT],
}

impl Model for CubicShape {
    ghost use Rattle.std.specs.Prelude.{pos, unsigned_abs};
    ghost use Rattle.std.specs.Prelude.{◌≡◌};
    ghost use Rattle.easing_fixed.specs.Cubics.{CubicParts, cubic_parts, IsCubic};
    ghost use Rattle.easing_fixed.specs.Starts.{starts_of};

    ghost Value = { CubicParts };

    ghost view = { λ c. cubic_parts (pos c.x1) c.y1 (pos c.x2) c.y2 };

    ghost invariant = { λ c.
        IsCubic (cubic_parts (pos c.x1) c.y1 (pos c.x2) c.y2) × (c.starts ≡ starts_of c.x1 c.x2) };

    ghost inverse = { λ c. record {
      x1 = unsigned_abs c.x1;
      y1 = c.y1;
      x2 = unsigned_abs c.x2;
      y2 = c.y2;
      starts = starts_of (unsigned_abs c.x1) (unsigned_abs c.x2);
    } };
}

impl CubicShape {
    /// Makes a curve with the control points (x1, y1) and (x2, y2), in millionths: each x from 0 to [`END`], each y at
    /// most [`LARGEST_Y`] in size. The x's are judged first.
    pub fn new(x1: i64, y1: i64, x2: i64, y2: i64) -> Result<CubicShape, EasingFault>
        ensures refused { result_err result ≡ cubic_refusal (cubic_parts x1 y1 x2 y2) }
        ensures parts { IfOk result (λ shape. shape ≡ cubic_parts x1 y1 x2 y2) }
    {
        let x1 = x_of(x1)?;
        let x2 = x_of(x2)?;
        let y1 = y_of(y1)?;
        let y2 = y_of(y2)?;
        Ok(CubicShape::of(x1, y1, x2, y2))
    }

    // The curve with these control points.
    pub(crate) fn of(x1: u32, y1: i32, x2: u32, y2: i32) -> CubicShape
        requires { IsCubic (cubic_parts (pos x1) y1 (pos x2) y2) }
        ensures { result ≡ cubic_parts (pos x1) y1 (pos x2) y2 }
    {
        CubicShape {
            x1,
            y1,
            x2,
            y2,
            starts: starts(x1, x2),
        }
    }

    /// How far across the first control point is.
    pub fn x1(&self) -> i64
        ensures value { result ≡ self.now.x1 }

        // So are the parts of every shape.
        ensures in_range { IsCubic self.now }
    {
        i64::from(self.x1)
    }

    /// How high the first control point is.
    pub fn y1(&self) -> i64
        ensures { result ≡ self.now.y1 }
    {
        i64::from(self.y1)
    }

    /// How far across the second control point is.
    pub fn x2(&self) -> i64
        ensures { result ≡ self.now.x2 }
    {
        i64::from(self.x2)
    }

    /// How high the second control point is.
    pub fn y2(&self) -> i64
        ensures { result ≡ self.now.y2 }
    {
        i64::from(self.y2)
    }

    /// The value at a progress p from 0 to [`ONE`], in the same unit: at most ten times [`ONE`] up or down.
    #[tactic(auto, unfolding(crate::specs::Cubics::cubic_value))]
    pub fn value(&self, p: u32) -> i64
        requires { p ≤ ONE }
        ensures value { result ≡ cubic_value self.now p }
        ensures size { unsigned_abs result ≤ 10 * ONE }
    {
        curve::level(self.y1, self.y2, curve::place(self.x1, self.x2, p))
    }

    /// The same as [`CubicShape::value`], in less than half its time: the start table leaves a sixteenth of the curve
    /// to search, and each look aims at where the curve should be as far across as p.
    #[tactic(auto, unfolding(crate::specs::Cubics::cubic_value))]
    pub fn quick_value(&self, p: u32) -> i64
        requires { p ≤ ONE }
        ensures value { result ≡ cubic_value self.now p }
        ensures size { unsigned_abs result ≤ 10 * ONE }
    {
        let place = quick_place(self.x1, self.x2, &self.starts, p);
        curve::level(self.y1, self.y2, place)
    }
}

// The x of a control point.
fn x_of(x: i64) -> Result<u32, EasingFault>
    ensures { MatchResult result
        (λ n. (x ≡ pos n) × (n ≤ END))
        (λ fault. (fault ≡ EasingFault.XOutOfRange) × IsFalse (is_x x)) }
{
    if (0..=i64::from(END)).contains(&x) {
        Ok(x as u32)
    } else {
        Err(EasingFault::XOutOfRange)
    }
}

// The y of a control point.
fn y_of(y: i64) -> Result<i32, EasingFault>
    ensures { MatchResult result
        (λ n. (y ≡ n) × (unsigned_abs n ≤ LARGEST_Y))
        (λ fault. (fault ≡ EasingFault.YOutOfRange) × IsFalse (is_y y)) }
{
    if y.unsigned_abs() <= u64::from(LARGEST_Y) {
        Ok(y as i32)
    } else {
        Err(EasingFault::YOutOfRange)
    }
}
