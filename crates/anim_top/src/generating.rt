//! The output of `gen` and of `load`.

ghost use Rattle.std.specs.Prelude.{◌≡◌, ◌≤◌, IfOk};
ghost use Rattle.anim_top.specs.Answers.{generated_text, load_text};

use crate::Hooks;
use crate::replaying::report_of;
use anim_delegate::VerdictFunction;
use easing_fixed::EasingFunction;
use frame_report::{print_report, print_summary};
use script_gen::{MOST_GENERATED, generate};
use script_printer::print_script;
use std::alloc::{AllocError, Global};

/// The text of the script that is made from a number.
pub(crate) fn generated_text(alloc: Global, n: u32) -> Result<Vec<u8>, AllocError>
    requires some { 1 ≤ n }
    requires few { n ≤ MOST_GENERATED }
    ensures { IfOk result (λ text. text.items ≡ generated_text n) }
{
    let script = generate(alloc, n)?;
    print_script(alloc, &script)
}

/// The summary of the report of the script that is made from a number.
pub(crate) fn load_text<F: VerdictFunction, E: EasingFunction>(
    alloc: Global,
    n: u32,
    hooks: &Hooks<F, E>,
) -> Result<Vec<u8>, AllocError>
    requires some { 1 ≤ n }
    requires few { n ≤ MOST_GENERATED }
    ensures { IfOk result (λ text. text.items ≡ load_text n) }
{
    let script = generate(alloc, n)?;
    let report = report_of(alloc, &script, hooks)?;
    let text = print_report(alloc, &report)?;
    print_summary(alloc, n, &report, text.len())
}
