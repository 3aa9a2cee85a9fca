//! The quick search for a cubic's place.
//!
//! A bracket is two steps, at the first of which the curve is not past the progress, and at the second it is. Whatever
//! step within is looked at next, one of the two halves is a bracket again. So the aim decides only how long it takes.

ghost use Rattle.std.specs.Prelude.{◌≡◌, ◌+◌, ◌*◌, ◌/◌, ◌^◌, ◌<◌, ◌≤◌, unsigned_abs, slice_index};
ghost use Rattle.easing_fixed.specs.Cubics.{across, bound, place};
ghost use Rattle.easing_fixed.specs.Starts.{intervals, stride, starts_of};

use crate::END;
use crate::curve::{UNIT, across, ascent};
use crate::start::{START_COUNT, STRIDE};
use anim_names::ONE;

// How many turns aim; those after them halve the bracket.
const AIMED: u32 = 6;

/// The greatest step at which the curve is no farther across than p, by the curve's start table.
pub(crate) fn quick_place(x1: u32, x2: u32, starts: &[u32; START_COUNT], p: u32) -> u32
    requires first { x1 ≤ END }
    requires second { x2 ≤ END }
    requires table { starts.now ≡ starts_of x1 x2 }
    requires progress { p ≤ ONE }
    ensures value { result ≡ place x1 x2 p }
    ensures within { result ≤ ONE }
{
    if p == ONE {
        return ONE;
    }
    let bound = table_bound(p);
    let interval = interval_of(starts, bound);
    let low = interval as u32 * STRIDE;
    let pace = pace_of(starts[interval], starts[interval + 1]);
    let near = along_chord(low, starts[interval], bound, pace);
    let aim = along_slope(x1, x2, p, near, pace);
    place_between(x1, x2, p, low, low + STRIDE, aim)
}

// The progress in the unit of the start table, rounded down.
fn table_bound(p: u32) -> u32
    requires { p < ONE }
    ensures value { result ≡ p * END / 256 }
    ensures size { result < intervals * intervals * intervals * END }
{
    ((u64::from(p) * u64::from(END)) >> 8) as u32
}

// The table's interval at whose beginning the curve is not past the bound, and at whose end it is.
fn interval_of(starts: &[u32; START_COUNT], bound: u32) -> usize
    requires begun { slice_index starts.now 0 ≤ bound }
    requires ended { bound < slice_index starts.now 16 }
    ensures within { result < 16 }
    ensures not_past { slice_index starts.now result ≤ bound }
    ensures past { bound < slice_index starts.now (result + 1) }
{
    let of_two = later_half(starts, 0, 8, bound);
    let of_four = later_half(starts, of_two, 4, bound);
    let of_eight = later_half(starts, of_four, 2, bound);
    later_half(starts, of_eight, 1, bound)
}

// Of two neighbours of this width in intervals, where the one begins in which the curve passes the bound.
fn later_half(starts: &[u32; START_COUNT], low: usize, width: usize, bound: u32) -> usize
    requires fits { low + width + width ≤ 16 }
    requires begun { slice_index starts.now low ≤ bound }
    requires ended { bound < slice_index starts.now (low + width + width) }
    ensures within { result + width ≤ 16 }
    ensures not_past { slice_index starts.now result ≤ bound }
    ensures past { bound < slice_index starts.now (result + width) }
{
    let middle = low + width;
    if starts[middle] <= bound { middle } else { low }
}

// How many steps take the curve on by one, from an interval's two numbers. A pace is in 2^-32 steps, and by one step
// the curve goes on in units of 2^44.
fn pace_of(begin: u32, end: u32) -> i64 {
    i64::from(u32::MAX / (end.saturating_sub(begin) >> 12).max(1))
}

// A step of the interval that begins at `low`: the one at which its chord is as far across as the bound. It is a guess.
fn along_chord(low: u32, begin: u32, bound: u32, pace: i64) -> u32
    requires { low + stride ≤ ONE }
    ensures { result < ONE }
{
    let gap = i64::from(bound) - i64::from(begin);
    let steps = gap.wrapping_mul(pace) >> 28;
    low + steps.clamp(0, i64::from(STRIDE) - 1) as u32
}

// The step at which the tangent at this one is as far across as p. It is a guess: the tangent's pace is made from the
// chord's by one step of Newton's method for a reciprocal, which takes no division.
fn along_slope(x1: u32, x2: u32, p: u32, step: u32, pace: i64) -> i64
    requires first { x1 ≤ END }
    requires second { x2 ≤ END }
    requires progress { p ≤ ONE }
    requires on { step < ONE }
{
    let reached = rough_across(x1, x2, step);
    let rise = rough_across(x1, x2, step + 1).wrapping_sub(reached) >> 24;
    let off = (rise.wrapping_mul(pace) >> 16).wrapping_mul(pace) >> 16;
    let pace = pace.wrapping_mul(2).wrapping_sub(off);
    let bound = i64::from(p) * i64::from(END) << 20;
    let gap = bound.wrapping_sub(reached) >> 24;
    i64::from(step).wrapping_add(gap.wrapping_mul(pace) >> 32)
}

// About how far across the curve is at a step, in units of 2^20.
fn rough_across(x1: u32, x2: u32, step: u32) -> i64
    requires first { x1 ≤ END }
    requires second { x2 ≤ END }
    requires within { step ≤ ONE }
{
    i64::from(step).wrapping_mul((ascent(x1, x2, ONE - step, step) >> 20) as i64)
}

// The place, where these two steps are a bracket of it.
fn place_between(x1: u32, x2: u32, p: u32, begin: u32, end: u32, aim: i64) -> u32
    requires first { x1 ≤ END }
    requires second { x2 ≤ END }
    requires progress { p ≤ ONE }
    requires some { begin < end }
    requires fits { end ≤ ONE }
    requires not_past { across ONE x1 x2 begin ≤ bound p }
    requires past { bound p < across ONE x1 x2 end }
    ensures value { result ≡ place x1 x2 p }
    ensures within { result ≤ ONE }
{
    let bound = u128::from(p) * u128::from(UNIT);
    let mut low = begin;
    let mut high = end;
    let mut aim = aim;
    let mut turns = 0;
    while high - low > 1 {
        let middle = look_at(low, high, aim, turns);
        let reached = across(x1, x2, middle);
        let next = across(x1, x2, middle + 1);
        if reached > bound {
            high = middle;
        } else if next <= bound {
            low = middle + 1;
        } else {
            return middle;
        }
        aim = aim_from(middle, bound, reached, next.saturating_sub(reached));
        turns = (turns + 1).min(AIMED);
    }
    low
}

// The step to look at next: the one aimed at, brought within the bracket, or after enough turns the middle.
fn look_at(low: u32, high: u32, aim: i64, turns: u32) -> u32
    requires { low + 1 < high }
    ensures above { low < result }
    ensures below { result < high }
{
    if turns < AIMED {
        aim.clamp(i64::from(low) + 1, i64::from(high) - 1) as u32
    } else {
        low + (high - low) / 2
    }
}

// Where the curve would pass the bound if, from this step on, where it is so far across, each step took it as far as
// the first. It is a guess, in numbers without their lower 44 bits.
fn aim_from(step: u32, bound: u128, reached: u128, rise: u128) -> i64 {
    let pace = u32::MAX / ((rise >> 44).clamp(1, 1 << 20) as u32);
    let gap = coarse(bound) - coarse(reached);
    i64::from(step).wrapping_add(gap.wrapping_mul(i64::from(pace)) >> 32)
}

fn coarse(across: u128) -> i64
    ensures { unsigned_abs result ≤ 2 ^ 40 }
{
    (across >> 44).min(1 << 40) as i64
}
