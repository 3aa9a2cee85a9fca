//! The compositor's part of a script as it is read: the next step is judged by the last tick and by the counts of
//! steps and frames.

ghost use Rattle.std.specs.Prelude.{◌≡◌, ◌+◌, ◌≤◌, [], length};
ghost use Rattle.anim_names.specs.declared.limit.TheConstants.{MOST_STEPS};
ghost use Rattle.run_rules.specs.Scripts.{ticks_of};
ghost use Rattle.frame_script.specs.Causes.{allow};
ghost use Rattle.script_lines.specs.LineFaults.{Gives};
ghost use Rattle.frame_script.specs.States.{compositor_with, compositor_refusal, tick_refusal, are_too_many};

use anim_names::LimitName;
use anim_names::limit::{MOST_FRAMES, MOST_STEPS};
use frame_script::Cause;
use run_rules::CompositorStep;
use script_lines::LineFault;
use std::alloc::Global;
use std::marker::Model;
use tree_commit::EditRefusal;

/// The steps of the compositor so far, and of their ticks how many there are and which is the last: no further step
/// looks at those before it.
///
/// Contracts see the steps.
#[derive(Drop)]
pub(crate) struct CompositorPart {
    steps: Vec<CompositorStep>,
    ticks: u32,
    last: u64,
}

impl Model for CompositorPart {
    ghost use Rattle.std.specs.Prelude.{◌≡◌, ◌≤◌, List, length};
    ghost use Rattle.anim_names.specs.declared.limit.TheConstants.{MOST_STEPS};
    ghost use Rattle.run_rules.specs.declared.compositor_step.CompositorStep.{CompositorStep};
    ghost use Rattle.run_rules.specs.Scripts.{ticks_of};
    ghost use Rattle.frame_script.specs.States.{last_from};

    ghost Value = { List CompositorStep };

    ghost view = { λ p. p.steps.items };

    ghost invariant = { λ p.
        (p.ticks ≡ length (ticks_of p.steps.items)) × (p.last ≡ last_from 0 (ticks_of p.steps.items))
        × (p.ticks ≤ length p.steps.items) × (length p.steps.items ≤ MOST_STEPS) };
}

impl CompositorPart {
    /// No steps.
    pub(crate) fn new(alloc: Global) -> CompositorPart
        ensures { result ≡ [] }
    {
        CompositorPart {
            steps: Vec::new(alloc),
            ticks: 0,
            last: 0,
        }
    }

    /// How many steps there are.
    pub(crate) fn len(&self) -> usize
        ensures { result ≡ length self.now }
    {
        self.steps.len()
    }

    /// Takes one more step, where it may be made. `elements` is how many elements were ever added.
    #[tactic(auto, unfolding(frame_script::specs::States::compositor_with))]
    pub(crate) fn push(&mut self, elements: u32, step: CompositorStep) -> Result<(), LineFault>
        ensures { Gives (λ _. self.new) result (compositor_with elements self.old step) }
    {
        if self.steps.len() >= MOST_STEPS as usize {
            return Err(limit(LimitName::Steps));
        }
        self.check(elements, step)?;
        self.steps.push(step)?;
        match step {
            CompositorStep::Pull => {}
            CompositorStep::Activate => {}
            CompositorStep::Tick(time) => {
                self.ticks += 1;
                self.last = time;
            }
        }
        Ok(())
    }

    fn check(&self, elements: u32, step: CompositorStep) -> Result<(), LineFault>
        ensures { Gives (λ x. x) result (allow (compositor_refusal elements (ticks_of self.now) step)) }
    {
        match step {
            CompositorStep::Pull | CompositorStep::Activate => Ok(()),
            CompositorStep::Tick(time) => self.check_tick(elements, time),
        }
    }

    fn check_tick(&self, elements: u32, time: u64) -> Result<(), LineFault>
        ensures { Gives (λ x. x) result (allow (tick_refusal elements (ticks_of self.now) time)) }
    {
        if time < self.last {
            Err(LineFault::Refused(Cause::TimeBack))
        } else if are_too_many(self.ticks + 1, elements) {
            Err(limit(LimitName::Frames))
        } else {
            Ok(())
        }
    }

    /// The steps.
    pub(crate) fn into_steps(self) -> Vec<CompositorStep>
        ensures { result.items ≡ self }
    {
        self.steps
    }
}

// Whether these numbers of ticks and of elements would make too many frames.
fn are_too_many(ticks: u32, elements: u32) -> bool
    ensures { result ≡ are_too_many ticks elements }
{
    u64::from(ticks) * u64::from(elements) > u64::from(MOST_FRAMES)
}

fn limit(name: LimitName) -> LineFault
    ensures { result ≡ LineFault.Refused (Cause.Edit (EditRefusal.Limit name)) }
{
    LineFault::Refused(Cause::Edit(EditRefusal::Limit(name)))
}
