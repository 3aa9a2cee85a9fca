//! Blends of the numbers that operations are made of.

ghost use Rattle.std.specs.Prelude.{◌≡◌, ◌+◌, ◌*◌, ◌≤◌, ◌-ℤ◌, ◌*ℤ◌, unsigned_abs};
ghost use Rattle.value_blend.specs.declared.TheConstants.{LARGEST_PROGRESS};
ghost use Rattle.value_blend.specs.Fixed.{floor_div};
ghost use Rattle.value_blend.specs.Blends.{IsNumber, part_way, blend_number};

use crate::LARGEST_NUMBER;
use anim_names::ONE;

// The largest number of an operation.
const LARGEST: i64 = LARGEST_NUMBER as i64;

/// The number that lies at a progress of the way from one number to the other, rounded down, and brought within
/// [`LARGEST_NUMBER`] in size. The progress is in units of which [`ONE`] is the whole way.
pub fn blend_number(from: i64, to: i64, progress: i64) -> i64
    requires from_within { IsNumber from }
    requires to_within { IsNumber to }
    requires progress_within { unsigned_abs progress ≤ LARGEST_PROGRESS }
    ensures value { result ≡ blend_number from to progress }
    ensures within { IsNumber result }
{
    part_way(from, to, progress).clamp(-LARGEST, LARGEST)
}

// The same, with no bound.
pub(crate) fn part_way(from: i64, to: i64, progress: i64) -> i64
    requires from_within { IsNumber from }
    requires to_within { IsNumber to }
    requires progress_within { unsigned_abs progress ≤ LARGEST_PROGRESS }
    ensures value { result ≡ part_way from to progress }
    ensures size { unsigned_abs result ≤ 33 * LARGEST_NUMBER + 1 }
{
    from + covered(distance(from, to), progress)
}

fn distance(from: i64, to: i64) -> i64
    requires from_within { IsNumber from }
    requires to_within { IsNumber to }
    ensures value { result ≡ to -ℤ from }
    ensures size { unsigned_abs result ≤ 2 * LARGEST_NUMBER }
{
    to - from
}

// So much of a distance, rounded down.
fn covered(distance: i64, progress: i64) -> i64
    requires distance_within { unsigned_abs distance ≤ 2 * LARGEST_NUMBER }
    requires progress_within { unsigned_abs progress ≤ LARGEST_PROGRESS }
    ensures value { result ≡ floor_div (distance *ℤ progress) ONE }
    ensures size { unsigned_abs result ≤ 32 * LARGEST_NUMBER + 1 }
{
    (product(distance, progress).div_euclid(i128::from(ONE))) as i64
}

fn product(distance: i64, progress: i64) -> i128
    requires distance_within { unsigned_abs distance ≤ 2 * LARGEST_NUMBER }
    requires progress_within { unsigned_abs progress ≤ LARGEST_PROGRESS }
    ensures value { result ≡ distance *ℤ progress }
    ensures size { unsigned_abs result ≤ 2 * LARGEST_NUMBER * LARGEST_PROGRESS }
{
    i128::from(distance) * i128::from(progress)
}
