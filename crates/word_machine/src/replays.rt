//! The replay of a script.

ghost use Rattle.std.specs.Prelude.{◌≡◌, ◌+◌, ◌<◌, ◌≤◌, ◌^◌, [], ◌∷◌, ◌++◌, IfOk, OnOk, length};
ghost use Rattle.event_queue.specs.Queues.{unheard};
ghost use Rattle.frame_exchange.specs.Sides.{IsMainComplete};
ghost use Rattle.run_rules.specs.Runs.{report_of};
ghost use Rattle.word_machine.specs.Laws.{KeepsLaws};
ghost use Rattle.word_machine.specs.Moments.{IsAt, Leaves, MayReplay, heard_out};

use crate::turns::{turn_of_compositor, turn_of_main};
use anim_names::Lane;
use element_samples::Frame;
use frame_exchange::{Board, CompositorSteps, MainSteps};
use frame_report::Report;
use frame_script::Script;
use std::alloc::{AllocError, Global};

/// Makes the steps of both lanes in the order of the script's word, and then the closing drain, and gives the report.
///
/// It waits for nobody. Where memory runs out, nothing is said of the sides and of the board but what their types keep.
pub fn replay<M: MainSteps, C: CompositorSteps>(
    alloc: Global,
    script: &Script,
    main: &mut M,
    compositor: &mut C,
    board: &mut Board,
) -> Result<Report, AllocError>
    requires { MayReplay script.now (M.state main.old) (C.state compositor.old) board.old }
    ensures report { IfOk result (λ report. report ≡ report_of script.now script.now.word) }
    ensures laws { IfOk result (λ report. KeepsLaws script.now report.word) }

    // The board has the whole journal and every event of the run, and the sides are where the run ends.
    ensures left { IfOk result (λ _. Leaves script.now script.now.word (M.state main.new) (C.state compositor.new) board.new) }
{
    let _kept = script.main();
    let mut counts = Vec::new(alloc);
    let mut frames = Vec::new(alloc);
    make_steps(script, main, compositor, board, &mut counts, &mut frames)?;
    close(main, board, &mut counts)?;
    let word = Vec::from_slice(alloc, script.word())?;
    let events = Vec::from_slice(alloc, board.events())?;
    Ok(Report::new(word, frames, events, counts))
}

// Makes the steps of both lanes, letter by letter.
fn make_steps<M: MainSteps, C: CompositorSteps>(
    script: &Script,
    main: &mut M,
    compositor: &mut C,
    board: &mut Board,
    counts: &mut Vec<u32>,
    frames: &mut Vec<Frame>,
) -> Result<(), AllocError>
    requires may { MayReplay script.now (M.state main.old) (C.state compositor.old) board.old }
    requires no_count { counts.old.items ≡ [] }
    requires no_frame { frames.old.items ≡ [] }
    ensures { OnOk result (IsAt script.now script.now.word (M.state main.new) (C.state compositor.new) board.new counts.new.items frames.new.items) }
{
    let _kept = board.entry_count();
    let mut steps_of_main = script.main().iter();
    let mut steps_of_compositor = script.compositor().iter();
    for letter in script.word() {
        match letter {
            Lane::Main => {
                if let Some(step) = steps_of_main.next() {
                    turn_of_main(step, main, board, counts)?;
                }
            }
            Lane::Compositor => {
                if let Some(step) = steps_of_compositor.next() {
                    turn_of_compositor(step, compositor, board, frames)?;
                }
            }
        }
    }
    Ok(())
}

/// The closing drain: main hears what no drain has given, and how many events it has heard goes behind the counts.
pub fn close<M: MainSteps>(
    main: &mut M,
    board: &Board,
    counts: &mut Vec<u32>,
) -> Result<(), AllocError>
    requires complete { IsMainComplete (M.state main.old) }
    requires batch_room { length (unheard board.now.queue) ≤ (M.state main.old).room }
    requires few { (M.state main.old).heard + length (unheard board.now.queue) < 2 ^ 32 }
    ensures counts { OnOk result (counts.new.items ≡ counts.old.items ++ ((M.state main.old).heard + length (unheard board.now.queue)) ∷ []) }
    ensures main { M.state main.new ≡ heard_out (M.state main.old) (unheard board.now.queue) }
{
    main.drain_last(board);
    main.hear();
    counts.push(main.heard() as u32)?;
    Ok(())
}
