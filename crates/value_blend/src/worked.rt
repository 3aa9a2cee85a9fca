//! Values worked out by hand, which the check computes from the definitions.

ghost use Rattle.std.specs.Prelude.{◌≡◌, pos};
ghost use Rattle.value_blend.specs.Blends.{blend_number, blend_opacity};

/// What the cubic easing (0, -10, 1, 0) gives half way, in 2^20: far below 0.
const OVERSHOOT: i64 = -3_801_088;

/// Where a move from 0 to 1000 is then, in thousandths of a pixel.
const MOVED_BACK: i64 = -3_625;

/// Past its ends an opacity stays within its range, and a number of an operation goes on.
pub fn overshoot_is_blended()
    ensures rising { blend_opacity 0 1000000 OVERSHOOT ≡ 0 }
    ensures falling { blend_opacity 1000000 0 OVERSHOOT ≡ 1000000 }
    ensures moving { blend_number (pos 0) (pos 1000) OVERSHOOT ≡ MOVED_BACK }
{}

/// How far a linear opacity has come a third and a half of the way, rounded down.
pub fn opacity_is_rounded_down()
    ensures a_third { blend_opacity 0 1000000 (pos 349524) ≡ 333332 }
    ensures a_half { blend_opacity 0 1000000 (pos 524288) ≡ 500000 }
    ensures falling { blend_opacity 1000000 0 (pos 875540) ≡ 165019 }
{}
