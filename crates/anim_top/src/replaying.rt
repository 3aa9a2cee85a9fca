//! Replaying a script on new sides and a new board, in the order of its own word.

ghost use Rattle.std.specs.Prelude.{◌≡◌, IfOk};
ghost use Rattle.run_rules.specs.Runs.{report_of};

use crate::Hooks;
use crate::starting::{MOST_EVENTS, new_board};
use anim_delegate::VerdictFunction;
use anim_names::limit::MOST_MODELS;
use easing_fixed::EasingFunction;
use frame_report::Report;
use frame_script::Script;
use side_compositor::CompositorSide;
use side_main::MainSide;
use std::alloc::{AllocError, Global};
use word_machine::replay;

/// The report of a script, as its own word orders its steps.
pub(crate) fn report_of<F: VerdictFunction, E: EasingFunction>(
    alloc: Global,
    script: &Script,
    hooks: &Hooks<F, E>,
) -> Result<Report, AllocError>
    ensures { IfOk result (λ report. report ≡ report_of script.now script.now.word) }
{
    let _well = script.main();
    let mut main = MainSide::new(alloc, MOST_EVENTS, &hooks.delegate)?;
    let mut compositor = CompositorSide::new(alloc, MOST_MODELS, &hooks.evaluator)?;
    let mut board = new_board(alloc, script)?;
    replay(alloc, script, &mut main, &mut compositor, &mut board)
}
