//! Worked rows: the check computes the definitions at numbers worked out by hand. The functions do nothing.
#![tactic(auto, unfolding(crate::specs::Easings::eased, crate::specs::Steps::step_value, crate::specs::Cubics::cubic_value, crate::specs::Cubics::place))]

ghost use Rattle.std.specs.Prelude.{◌≡◌, pos, negsuc, Some};
ghost use Rattle.easing_fixed.specs.Cubics.{cubic_refusal, place};
ghost use Rattle.easing_fixed.specs.Easings.{eased};
ghost use Rattle.easing_fixed.specs.Steps.{step_parts, step_refusal};
ghost use Rattle.easing_fixed.specs.Worked.{upright, ease_out, undershooting, too_far, too_deep};
ghost use Rattle.easing_fixed.specs.declared.easing.Easing.{Easing};
ghost use Rattle.easing_fixed.specs.declared.fault.EasingFault.{EasingFault};
ghost use Rattle.easing_fixed.specs.declared.position.StepPosition.{StepPosition};

/// Steps with each way to jump, and counts that make none.
pub fn steps()
    ensures none_end { eased (Easing.Steps (step_parts 4 StepPosition.JumpNone)) 1048576 ≡ pos 1048576 }
    ensures none_half { eased (Easing.Steps (step_parts 4 StepPosition.JumpNone)) 524288 ≡ pos 699050 }
    ensures both_beginning { eased (Easing.Steps (step_parts 4 StepPosition.JumpBoth)) 0 ≡ pos 209715 }
    ensures end_almost { eased (Easing.Steps (step_parts 1 StepPosition.JumpEnd)) 1048575 ≡ pos 0 }
    ensures start_end { eased (Easing.Steps (step_parts 1 StepPosition.JumpStart)) 1048576 ≡ pos 1048576 }
    ensures one_between { step_refusal (step_parts 1 StepPosition.JumpNone) ≡ Some EasingFault.BadCount }
    ensures none_at_all { step_refusal (step_parts 0 StepPosition.JumpEnd) ≡ Some EasingFault.BadCount }
{}

/// A curve that is upright in the middle: one step of progress there is almost ten thousand steps of height.
pub fn upright_cubic()
    ensures beginning { eased (Easing.Cubic upright) 0 ≡ pos 0 }
    ensures half { eased (Easing.Cubic upright) 524288 ≡ pos 524288 }
    ensures next_place { place 1000000 0 524289 ≡ 530789 }
    ensures next { eased (Easing.Cubic upright) 524289 ≡ pos 534039 }
    ensures end { eased (Easing.Cubic upright) 1048576 ≡ pos 1048576 }
{}

/// About the middle of ease-out: the place is the greatest step that is not past the progress, and not the nearest.
pub fn ease_out_cubic()
    ensures before_place { place 0 580000 359137 ≡ 524287 }
    ensures before { eased (Easing.Cubic ease_out) 359137 ≡ pos 524286 }
    ensures half_place { place 0 580000 359138 ≡ 524288 }
    ensures half { eased (Easing.Cubic ease_out) 359138 ≡ pos 524288 }
{}

/// A curve may leave the range of its progress, and numbers out of range make none.
pub fn undershooting_cubic()
    ensures half { eased (Easing.Cubic undershooting) 524288 ≡ negsuc 3801087 }
    ensures too_far { cubic_refusal too_far ≡ Some EasingFault.XOutOfRange }
    ensures too_deep { cubic_refusal too_deep ≡ Some EasingFault.YOutOfRange }
{}
