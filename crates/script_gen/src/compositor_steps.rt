//! The compositor's steps: ticks one after another, and every few of them a pull and an activation.

ghost use Rattle.std.specs.Prelude.{◌≡◌, ◌++◌, ◌≤◌, IfOk, OnOk};
ghost use Rattle.script_gen.specs.Generated.{ticking_steps, compositor_steps};

use crate::MOST_GENERATED;
use run_rules::CompositorStep;
use std::alloc::{AllocError, Global};

/// From one tick to the next, in microseconds: some 60 ticks a second.
const BETWEEN_TICKS: u64 = 16_667;

/// How many ticks there are for each element.
const TICKS_PER_ELEMENT: u32 = 4;

/// A pull comes after each tick whose number, from 0, this divides.
const TICKS_PER_PULL: u32 = 4;

/// The compositor's steps for this number of elements.
#[tactic(auto, unfolding(crate::specs::Generated::compositor_steps))]
pub(crate) fn compositor_steps(alloc: Global, n: u32) -> Result<Vec<CompositorStep>, AllocError>
    requires { n ≤ MOST_GENERATED }
    ensures { IfOk result (λ steps. steps.items ≡ compositor_steps n) }
{
    let mut steps = Vec::new(alloc);
    for j in 0..TICKS_PER_ELEMENT * n {
        push_ticking(&mut steps, j)?;
    }
    Ok(steps)
}

#[tactic(auto, unfolding(crate::specs::Generated::ticking_steps))]
fn push_ticking(steps: &mut Vec<CompositorStep>, j: u32) -> Result<(), AllocError>
    ensures { OnOk result (steps.new.items ≡ steps.old.items ++ ticking_steps j) }
{
    steps.push(CompositorStep::Tick(BETWEEN_TICKS * u64::from(j)))?;
    if j % TICKS_PER_PULL == 0 {
        steps.push(CompositorStep::Pull)?;
        steps.push(CompositorStep::Activate)?;
    }
    Ok(())
}
