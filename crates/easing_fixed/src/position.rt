//! The places where a step function may jump, with what each asks of the number of intervals and how many jumps come
//! at once.

ghost use Rattle.std.specs.Prelude.{◌≡◌};
ghost use Rattle.easing_fixed.specs.Steps.{least_count, first_jumps};

/// Where a step function jumps, after CSS Easing Functions Level 1.
#[derive(Clone, Copy, PartialEq, Eq)]
pub enum StepPosition {
    /// At the beginning of each step, so the first jump comes at once. Also called start.
    JumpStart,
    /// At the end of each step, so the last jump comes at the end. Also called end.
    JumpEnd,
    /// Between the steps alone, neither at the beginning nor at the end.
    JumpNone,
    /// At the beginning, between the steps and at the end.
    JumpBoth,
}

impl StepPosition {
    // The fewest intervals that there can be.
    pub(crate) fn least_count(self) -> u32
        ensures { result ≡ least_count self }
    {
        match self {
            StepPosition::JumpNone => 2,
            _ => 1,
        }
    }

    // How many jumps come at once.
    pub(crate) fn first_jumps(self) -> u32
        ensures { result ≡ first_jumps self }
    {
        match self {
            StepPosition::JumpStart | StepPosition::JumpBoth => 1,
            StepPosition::JumpEnd | StepPosition::JumpNone => 0,
        }
    }
}
