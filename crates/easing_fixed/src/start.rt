//! The start table of a cubic: how far across the curve is at the ends of sixteen intervals of its steps.

ghost use Rattle.std.specs.Prelude.{◌≡◌, ◌≤◌};
ghost use Rattle.easing_fixed.specs.Starts.{intervals, starts_of};
ghost use Rattle.easing_fixed.specs.Cubics.{across};

use crate::END;

/// How many intervals the table has.
pub(crate) const INTERVALS: u32 = 16;

/// How many numbers the table has.
pub(crate) const START_COUNT: usize = 17;

/// How many steps an interval has.
pub(crate) const STRIDE: u32 = 1 << 16;

/// The start table of the curve with these control points.
pub(crate) fn starts(x1: u32, x2: u32) -> [u32; START_COUNT]
    requires first { x1 ≤ END }
    requires second { x2 ≤ END }
    ensures { result ≡ starts_of x1 x2 }
{
    [
        start(x1, x2, 0),
        start(x1, x2, 1),
        start(x1, x2, 2),
        start(x1, x2, 3),
        start(x1, x2, 4),
        start(x1, x2, 5),
        start(x1, x2, 6),
        start(x1, x2, 7),
        start(x1, x2, 8),
        start(x1, x2, 9),
        start(x1, x2, 10),
        start(x1, x2, 11),
        start(x1, x2, 12),
        start(x1, x2, 13),
        start(x1, x2, 14),
        start(x1, x2, 15),
        start(x1, x2, 16),
    ]
}

// How far across the curve is where this interval begins, in the unit of sixteen steps.
fn start(x1: u32, x2: u32, interval: u32) -> u32
    requires first { x1 ≤ END }
    requires second { x2 ≤ END }
    requires within { interval ≤ intervals }
    ensures { result ≡ across intervals x1 x2 interval }
{
    let (x1, x2, end) = (u64::from(x1), u64::from(x2), u64::from(END));
    let (rest, s) = (u64::from(INTERVALS - interval), u64::from(interval));
    (3 * rest * rest * s * x1 + 3 * rest * s * s * x2 + s * s * s * end) as u32
}
