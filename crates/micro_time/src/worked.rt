//! Worked rows: the check computes the definitions at numbers worked out by hand. The functions do nothing.
#![tactic(auto, unfolding(crate::specs::Timings::phase, crate::specs::Timings::is_done, crate::specs::Timings::curve_time))]

ghost use Rattle.std.specs.Prelude.{◌≡◌, pos, negsuc, ◌≤ℤ◌, IsTrue, IsFalse, Some, None};
ghost use Rattle.micro_time.specs.Timings.{refusal, is_done, curve_time};
ghost use Rattle.micro_time.specs.Worked.{two_and_a_half, none_at_all, reversed, reversed_from_half, reversed_forever, standing};
ghost use Rattle.micro_time.specs.declared.direction.Direction.{Direction};
ghost use Rattle.micro_time.specs.declared.fault.TimingFault.{TimingFault};
ghost use Rattle.micro_time.specs.declared.fault.TimingField.{TimingField};

/// Two and a half iterations of a second, backwards first, end in the middle of the last one.
pub fn two_and_a_half_iterations()
    ensures before { curve_time two_and_a_half (negsuc 0) ≡ Some 1000000 }
    ensures turn { curve_time two_and_a_half (pos 1000000) ≡ Some 0 }
    ensures third { curve_time two_and_a_half (pos 2250000) ≡ Some 750000 }
    ensures end { curve_time two_and_a_half (pos 2500000) ≡ Some 500000 }
    ensures not_yet { IsFalse (is_done two_and_a_half (pos 2499999)) }
    ensures done { IsTrue (is_done two_and_a_half (pos 2500000)) }
{}

/// At their end and ever after the curve time is the same, and the animation is done.
pub fn two_and_a_half_iterations_over(local: i64)
    requires { pos 2500000 ≤ℤ local }
    ensures stands { curve_time two_and_a_half local ≡ Some 500000 }
    ensures done { IsTrue (is_done two_and_a_half local) }
{}

/// No iterations are over at once: at the beginning of the curve, or at its end where it is run through backwards.
pub fn no_iterations()
    ensures before { curve_time (none_at_all Direction.Normal) (negsuc 0) ≡ None }
    ensures normal { curve_time (none_at_all Direction.Normal) (pos 0) ≡ Some 0 }
    ensures reverse { curve_time (none_at_all Direction.Reverse) (pos 0) ≡ Some 1000000 }
    ensures done { IsTrue (is_done (none_at_all Direction.Normal) (pos 0)) }
{}

/// At the rate -1 the curve is run through from its end.
pub fn negative_rate()
    ensures beginning { curve_time reversed (pos 0) ≡ Some 1000000 }
    ensures quarter { curve_time reversed (pos 250000) ≡ Some 750000 }
    ensures end { curve_time reversed (pos 1000000) ≡ Some 0 }
    ensures from_half { curve_time reversed_from_half (pos 0) ≡ Some 500000 }
    ensures infinite { refusal reversed_forever ≡ Some TimingFault.InfiniteReverse }
    ensures standing { refusal standing ≡ Some (TimingFault.OutOfRange TimingField.Rate) }
{}
