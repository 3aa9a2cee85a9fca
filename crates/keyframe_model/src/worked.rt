//! Values worked out by hand, which the check computes from the definitions.

ghost use Rattle.std.specs.Prelude.{◌≡◌, Some, None, pos, negsuc};
ghost use Rattle.keyframe_model.specs.Worked.{fade_in};
ghost use Rattle.keyframe_model.specs.Models.{OpacityValue, model_value};

/// The opacity a third of a second after the start.
const A_THIRD: u32 = 333_332;

/// A fade of a second that fills forwards: it has no value before its start, and keeps the last one after its end.
#[tactic(auto, unfolding(crate::specs::Models::model_value, curve_keys::specs::Curves::curve_value, easing_fixed::specs::Easings::eased, micro_time::specs::Timings::curve_time, micro_time::specs::Timings::phase))]
pub fn values_of_a_fade()
    ensures before { model_value fade_in (negsuc 0) ≡ None }
    ensures at_a_third { model_value fade_in (pos 333333) ≡ Some (OpacityValue A_THIRD) }
    ensures after { model_value fade_in (pos 5000000) ≡ Some (OpacityValue 1000000) }
{}
