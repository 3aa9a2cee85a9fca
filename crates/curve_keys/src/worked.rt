//! Values worked out by hand, which the check computes from the definitions.

ghost use Rattle.std.specs.Prelude.{◌≡◌, Some};
ghost use Rattle.value_blend.specs.Blends.{blend_opacity};
ghost use Rattle.curve_keys.specs.Worked.{up_and_half_down, stepped};
ghost use Rattle.curve_keys.specs.Curves.{curve_value};

/// Where an opacity is half way down from opaque to half.
const BETWEEN: u32 = 750_000;

/// An opacity rises from 0 at time 0 to opaque at 400000, and falls to half at 1000000.
#[tactic(auto, unfolding(crate::specs::Curves::curve_value, easing_fixed::specs::Easings::eased))]
pub fn values_of_a_linear_curve()
    ensures at_a_key { curve_value blend_opacity up_and_half_down 400000 ≡ Some 1000000 }
    ensures between_keys { curve_value blend_opacity up_and_half_down 700000 ≡ Some BETWEEN }
    ensures at_the_end { curve_value blend_opacity up_and_half_down 1000000 ≡ Some 500000 }
{}

/// A first key whose easing jumps at once counts from time 1 on: at time 0 the value is the key's own.
#[tactic(auto, unfolding(crate::specs::Curves::curve_value, easing_fixed::specs::Easings::eased, easing_fixed::specs::Steps::step_value))]
pub fn begin_is_the_first_value()
    ensures at_the_begin { curve_value blend_opacity stepped 0 ≡ Some 0 }
    ensures just_after { curve_value blend_opacity stepped 1 ≡ Some 250000 }
{}
