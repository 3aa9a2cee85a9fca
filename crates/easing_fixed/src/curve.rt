//! Points of a cubic Bézier curve from (0, 0) to (1, 1), along which there are [`ONE`] steps.

ghost use Rattle.std.specs.Prelude.{◌≡◌, ◌+◌, ◌*◌, ◌≤◌, pos, ◌*ℤ◌, unsigned_abs};
ghost use Rattle.easing_fixed.specs.declared.TheConstants.{LARGEST_Y};
ghost use Rattle.easing_fixed.specs.Cubics.{first_weight, second_weight, end_weight, unit, across, height, place};
ghost use Rattle.std.specs.Int.{int_div_euclid};

use crate::END;
use anim_names::ONE;

/// What 1 of a progress or a value is, in the unit of [`across`] and [`height`].
pub(crate) const UNIT: u64 = ONE as u64 * ONE as u64 * END as u64;

/// How far across the curve is at step s, in millionths of [`ONE`] to the third.
pub(crate) fn across(x1: u32, x2: u32, s: u32) -> u128
    requires first { x1 ≤ END }
    requires second { x2 ≤ END }
    requires step { s ≤ ONE }
    ensures { result ≡ across ONE x1 x2 s }
{
    u128::from(s) * u128::from(ascent(x1, x2, ONE - s, s))
}

/// How far across that is for each step.
pub(crate) fn ascent(x1: u32, x2: u32, rest: u32, s: u32) -> u64
    requires first { x1 ≤ END }
    requires second { x2 ≤ END }
    requires steps { rest + s ≡ ONE }
    ensures { s * result ≡ across ONE x1 x2 s }
{
    let (x1, x2, rest, s) = (u64::from(x1), u64::from(x2), u64::from(rest), u64::from(s));
    3 * rest * rest * x1 + s * (3 * rest * x2 + s * u64::from(END))
}

/// How high the curve is at step s, in the same unit.
pub(crate) fn height(y1: i32, y2: i32, s: u32) -> i128
    requires first { unsigned_abs y1 ≤ LARGEST_Y }
    requires second { unsigned_abs y2 ≤ LARGEST_Y }
    requires step { s ≤ ONE }
    ensures value { result ≡ height ONE y1 y2 s }
    ensures size { unsigned_abs result ≤ ONE * ONE * ONE * LARGEST_Y }
{
    weighed(first_weight(s), y1)
        + weighed(second_weight(s), y2)
        + weighed(end_weight(s), END as i32)
}

/// The value at that height, rounded down.
pub(crate) fn level(y1: i32, y2: i32, s: u32) -> i64
    requires first { unsigned_abs y1 ≤ LARGEST_Y }
    requires second { unsigned_abs y2 ≤ LARGEST_Y }
    requires step { s ≤ ONE }
    ensures value { result ≡ int_div_euclid (height ONE y1 y2 s) (pos unit) }
    ensures size { unsigned_abs result ≤ 10 * ONE }
{
    ((height(y1, y2, s) >> 40) as i64).div_euclid(i64::from(END))
}

/// The greatest step at which the curve is no farther across than p, by a bisection of at most 21 turns.
pub(crate) fn place(x1: u32, x2: u32, p: u32) -> u32
    requires first { x1 ≤ END }
    requires second { x2 ≤ END }
    requires progress { p ≤ ONE }
    ensures value { result ≡ place x1 x2 p }
    ensures within { result ≤ ONE }
{
    let bound = u128::from(p) * u128::from(UNIT);
    // The curve is not past p at `low`, and it is from `high` on.
    let mut low = 0;
    let mut high = ONE + 1;
    while high - low > 1 {
        let middle = low + (high - low) / 2;
        if across(x1, x2, middle) <= bound {
            low = middle;
        } else {
            high = middle;
        }
    }
    low
}

// How much the first control point weighs at step s.
fn first_weight(s: u32) -> u64
    requires { s ≤ ONE }
    ensures value { result ≡ first_weight ONE s }
    ensures size { result ≤ 3 * ONE * ONE * ONE }
{
    let rest = u64::from(ONE - s);
    3 * rest * rest * u64::from(s)
}

// How much the second control point weighs there.
fn second_weight(s: u32) -> u64
    requires { s ≤ ONE }
    ensures value { result ≡ second_weight ONE s }
    ensures size { result ≤ 3 * ONE * ONE * ONE }
{
    let s = u64::from(s);
    3 * (u64::from(ONE) - s) * s * s
}

// How much the end of the curve weighs there.
fn end_weight(s: u32) -> u64
    requires { s ≤ ONE }
    ensures value { result ≡ end_weight s }
    ensures size { result ≤ ONE * ONE * ONE }
{
    let s = u64::from(s);
    s * s * s
}

// What a control number adds at this weight.
fn weighed(weight: u64, y: i32) -> i128
    requires { unsigned_abs y ≤ LARGEST_Y }
    ensures value { result ≡ pos weight *ℤ y }
    ensures size { unsigned_abs result ≤ weight * LARGEST_Y }
{
    i128::from(weight) * i128::from(y)
}
