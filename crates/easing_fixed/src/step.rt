//! Step functions: the value at a progress is the share of its jumps that are made by then.

ghost use Rattle.std.specs.Prelude.{◌≡◌, ◌+◌, ◌*◌, ◌<◌, ◌≤◌, IfOk};
ghost use Rattle.std.specs.Result.{result_err};
ghost use Rattle.easing_fixed.specs.Steps.{step_parts, step_refusal, AreSteps, jumps, step, step_value};

use crate::{EasingFault, MOST_INTERVALS, StepPosition};
use anim_names::ONE;
use std::marker::Model;

/// A step function: how many intervals it has, and where it jumps.
#[derive(Clone, Copy, PartialEq, Eq)]
pub struct StepShape {
    count: u32,
    position: StepPosition,
}

impl Model for StepShape {
    ghost use Rattle.easing_fixed.specs.Steps.{StepParts, step_parts, AreSteps};

    ghost Value = { StepParts };

    ghost view = { λ s. step_parts s.count s.position };

    ghost invariant = { λ s. AreSteps (step_parts s.count s.position) };

    ghost inverse = { λ s. record { count = s.count; position = s.position } };
}

impl StepShape {
    /// Makes a step function of 1 to [`MOST_INTERVALS`] intervals, or of 2 at least where it jumps between them alone.
    pub fn new(count: u32, position: StepPosition) -> Result<StepShape, EasingFault>
        ensures refused { result_err result ≡ step_refusal (step_parts count position) }
        ensures parts { IfOk result (λ shape. shape ≡ step_parts count position) }
    {
        if count < position.least_count() || count > MOST_INTERVALS {
            return Err(EasingFault::BadCount);
        }
        Ok(StepShape { count, position })
    }

    // The step function of this count and position.
    pub(crate) fn of(count: u32, position: StepPosition) -> StepShape
        requires { AreSteps (step_parts count position) }
        ensures { result ≡ step_parts count position }
    {
        StepShape { count, position }
    }

    /// How many intervals there are.
    pub fn count(&self) -> u32
        ensures value { result ≡ self.now.count }

        // So are the parts of every shape.
        ensures in_range { AreSteps self.now }
    {
        self.count
    }

    /// Where it jumps.
    pub fn position(&self) -> StepPosition
        ensures { result ≡ self.now.position }
    {
        self.position
    }

    /// The value at a progress p from 0 to [`ONE`], in the same unit.
    #[tactic(auto, unfolding(crate::specs::Steps::step_value))]
    pub fn value(&self, p: u32) -> u32
        requires { p ≤ ONE }
        ensures value { result ≡ step_value self.now p }
        ensures within { result ≤ ONE }
    {
        (u64::from(self.step(p)) * u64::from(ONE) / u64::from(self.jumps())) as u32
    }

    // How many jumps lead from 0 to 1.
    fn jumps(&self) -> u32
        ensures value { result ≡ jumps self.now }
        ensures some { 0 < result }
        ensures size { result ≤ MOST_INTERVALS + 1 }
    {
        match self.position {
            StepPosition::JumpStart | StepPosition::JumpEnd => self.count,
            StepPosition::JumpNone => self.count - 1,
            StepPosition::JumpBoth => self.count + 1,
        }
    }

    // How many of them are made at p.
    fn step(&self, p: u32) -> u32
        requires { p ≤ ONE }
        ensures value { result ≡ step self.now p }
        ensures within { result ≤ jumps self.now }
    {
        let ended = (u64::from(p) * u64::from(self.count) / u64::from(ONE)) as u32;
        (ended + self.position.first_jumps()).min(self.jumps())
    }
}
