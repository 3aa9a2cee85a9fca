//! The lines of the compositor's steps and of the word, by their fields.

ghost use Rattle.std.specs.Prelude.{map};
ghost use Rattle.script_lines.specs.LineFaults.{Gives};
ghost use Rattle.frame_script.specs.Said as said;

use crate::fault::LineFault;
use crate::main_line::alone;
use anim_names::{Lane, Version};
use frame_script::Cause;
use run_rules::CompositorStep;
use script_fields::is;
use script_fields::keywords::letters_said;
use script_fields::values::time_said;
use std::alloc::Global;

/// A step of the compositor, in a version of the language: its name, and the further fields of its line.
#[tactic(auto, unfolding(frame_script::specs::Said::compositor_said))]
pub fn compositor_said(
    _version: Version,
    name: &[u8],
    fields: &[&[u8]],
) -> Result<CompositorStep, LineFault>
    ensures { Gives (λ step. step) result (said.compositor_said _version name.now (map (λ field. field.now) fields.now)) }
{
    if is(name, "pull") {
        alone(fields)?;
        Ok(CompositorStep::Pull)
    } else if is(name, "activate") {
        alone(fields)?;
        Ok(CompositorStep::Activate)
    } else if is(name, "tick") {
        tick_said(fields)
    } else {
        Err(LineFault::Refused(Cause::BadLine))
    }
}

fn tick_said(fields: &[&[u8]]) -> Result<CompositorStep, LineFault>
    ensures { Gives (λ step. step) result (said.tick_said (map (λ field. field.now) fields.now)) }
{
    match fields {
        [time] => match time_said(time) {
            Some(time) => Ok(CompositorStep::Tick(time)),
            None => Err(LineFault::Refused(Cause::BadNumber)),
        },
        _ => Err(LineFault::Refused(Cause::BadLine)),
    }
}

/// The letters of a word, by the further fields of its line.
pub fn word_said(alloc: Global, fields: &[&[u8]]) -> Result<Vec<Lane>, LineFault>
    ensures { Gives (λ word. word.items) result (said.word_said (map (λ field. field.now) fields.now)) }
{
    match fields {
        [letters] => letters_said(alloc, letters)?.ok_or(LineFault::Refused(Cause::BadWord)),
        _ => Err(LineFault::Refused(Cause::BadLine)),
    }
}
