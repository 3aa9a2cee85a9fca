//! A generated script, put together of its lanes' steps and a word that takes turns between them.

ghost use Rattle.std.specs.Prelude.{◌≡◌, ◌≤◌, IfOk};
ghost use Rattle.script_gen.specs.Generated.{generated_script};

use crate::MOST_GENERATED;
use crate::compositor_steps::compositor_steps;
use crate::main_steps::main_steps;
use crate::rounds::word_of_rounds;
use anim_names::Version;
use frame_script::Script;
use std::alloc::{AllocError, Global};

/// The script that is made from a number, which is that of its elements; it has twice as many models, and four times as
/// many ticks. The same number always gives the same script.
pub fn generate(alloc: Global, n: u32) -> Result<Script, AllocError>
    requires some { 1 ≤ n }
    requires few { n ≤ MOST_GENERATED }
    ensures { IfOk result (λ script. script ≡ generated_script n) }
{
    let main = main_steps(alloc, n)?;
    let compositor = compositor_steps(alloc, n)?;
    let word = word_of_rounds(alloc, main.len(), compositor.len())?;
    Ok(Script::new(Version::One, main, compositor, word))
}
