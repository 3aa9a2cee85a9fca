//! Values worked out by hand, which the check computes from the definitions.

ghost use Rattle.std.specs.Prelude.{◌≡◌};
ghost use Rattle.anim_timeline.specs.Timelines.{timeline_time};

/// What a timeline that shows 0 at 1000 shows at 2000.
const AFTER_ITS_ZERO: i64 = 1_000;

/// What it shows at 500.
const BEFORE_ITS_ZERO: i64 = -500;

/// A timeline shows how far the tick is from its zero, on either side.
pub fn time_may_be_negative()
    ensures after { timeline_time 1000 2000 ≡ AFTER_ITS_ZERO }
    ensures before { timeline_time 1000 500 ≡ BEFORE_ITS_ZERO }
{}
