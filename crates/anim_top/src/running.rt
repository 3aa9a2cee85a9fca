//! Running both lanes of a script at once, on new sides and a new board.

ghost use Rattle.std.specs.Prelude.{◌≡◌, IfOk};
ghost use Rattle.anim_top.specs.Outside.{FoundWord};
ghost use Rattle.run_rules.specs.Runs.{report_of};

use crate::Hooks;
use crate::starting::{MOST_EVENTS, new_board};
use anim_delegate::VerdictFunction;
use anim_names::limit::MOST_MODELS;
use easing_fixed::EasingFunction;
use edge_io::Gate;
use frame_report::Report;
use frame_script::Script;
use lane_threads::run_lanes;
use side_compositor::CompositorSide;
use side_main::MainSide;
use std::alloc::{AllocError, Global};
use std::sync::Wait;
use std::thread::Threads;

/// Runs the two lanes of a script, each in a thread of its own, and gives the report with the word in which they met.
///
/// It may wait for the lock between the lanes. Where one lane finds no memory, the other goes on to its end, and no
/// report is made.
pub fn run_threads<
    R: Threads + Wait + Sync,
    G: Gate + Sync,
    F: VerdictFunction + Sync,
    E: EasingFunction + Sync,
>(
    rt: &R,
    alloc: Global,
    script: &Script,
    gate: &G,
    hooks: &Hooks<F, E>,
) -> Result<Report, AllocError>
    ensures report { IfOk result (λ report. report ≡ report_of script.now report.word) }
    ensures word { IfOk result (λ report. FoundWord script.now report.word) }
{
    let _well = script.main();
    let main = MainSide::new(alloc, MOST_EVENTS, &hooks.delegate)?;
    let compositor = CompositorSide::new(alloc, MOST_MODELS, &hooks.evaluator)?;
    let board = new_board(alloc, script)?;
    run_lanes(rt, alloc, script, main, compositor, board, gate)
}
