//! One step of a lane: its calls, in their order.

ghost use Rattle.std.specs.Prelude.{◌≡◌, ◌<◌, ◌≤◌, IsTrue, OnOk, length};
ghost use Rattle.anim_names.specs.declared.lane.Lane.{Lane};
ghost use Rattle.anim_names.specs.declared.limit.TheConstants.{MOST_STEPS};
ghost use Rattle.frame_exchange.specs.Journals.{last_upto};
ghost use Rattle.frame_exchange.specs.Sides.{IsMainComplete, compositor_after_send, main_after_edit};
ghost use Rattle.run_rules.specs.Scripts.{EditStep, is_allowed};
ghost use Rattle.tree_commit.specs.Views.{change_of};
ghost use Rattle.run_rules.specs.Views.{step_of};
ghost use Rattle.word_machine.specs.Turns.{MayMakeCompositor, MayMakeMain, MaySend, board_after_compositor, board_after_main, board_told, compositor_turned, counts_with, frames_with, main_turned};

use element_samples::Frame;
use frame_exchange::{Board, CompositorSteps, MainSteps};
use run_rules::{CompositorStep, MainStep};
use std::alloc::AllocError;
use tree_commit::{Edit, EditFault};

/// Makes a step of main. A drain puts how many events main has heard behind the counts.
pub(crate) fn turn_of_main<M: MainSteps>(
    step: &MainStep,
    main: &mut M,
    board: &mut Board,
    counts: &mut Vec<u32>,
) -> Result<(), AllocError>
    requires { MayMakeMain (step_of step.now) (M.state main.old) board.old }
    ensures made { OnOk result (M.state main.new ≡ main_turned (step_of step.now) board.old (M.state main.old)) }
    ensures board { OnOk result (board.new ≡ board_after_main (step_of step.now) (M.state main.old) board.old) }
    ensures counts { OnOk result (counts.new.items ≡ counts_with (step_of step.now) (M.state main.new) counts.old.items) }
{
    match step {
        MainStep::Edit(edit) => make_edit(edit, main),
        MainStep::Commit => {
            let commit = main.build()?;
            main.publish(board, commit);
            Ok(())
        }
        MainStep::Drain => {
            main.drain(board);
            main.hear();
            counts.push(main.heard() as u32)?;
            Ok(())
        }
    }
}

/// Makes an edit that the book of the edits so far allows. Where memory runs out nothing changes.
pub fn make_edit<M: MainSteps>(edit: &Edit, main: &mut M) -> Result<(), AllocError>
    requires complete { IsMainComplete (M.state main.old) }
    requires steps { (M.state main.old).steps < MOST_STEPS }
    requires allowed { IsTrue (is_allowed (M.state main.old).book (EditStep (change_of edit.now))) }
    ensures { OnOk result (M.state main.new ≡ main_after_edit (M.state main.old) (change_of edit.now)) }
{
    match main.edit(edit) {
        Ok(_) => Ok(()),
        Err(EditFault::NoMemory) => Err(AllocError),
        Err(EditFault::Refused(_)) => unreachable!(),
    }
}

/// Makes a step of the compositor. A tick puts its frame behind the others.
pub(crate) fn turn_of_compositor<C: CompositorSteps>(
    step: &CompositorStep,
    compositor: &mut C,
    board: &mut Board,
    frames: &mut Vec<Frame>,
) -> Result<(), AllocError>
    requires { MayMakeCompositor step.now (C.state compositor.old) board.old }
    ensures made { OnOk result (C.state compositor.new ≡ compositor_turned step.now board.old (C.state compositor.old)) }
    ensures board { OnOk result (board.new ≡ board_after_compositor step.now (C.state compositor.old) board.old) }
    ensures frames { OnOk result (frames.new.items ≡ frames_with step.now (C.state compositor.old) frames.old.items) }
{
    match step {
        CompositorStep::Pull => {
            if compositor.pull(board) {
                compositor.place()?;
            }
        }
        CompositorStep::Activate => {
            compositor.activate();
            send_news(compositor, board);
        }
        CompositorStep::Tick(time) => {
            let frame = compositor.tick(*time)?;
            send_news(compositor, board);
            frames.push(frame)?;
        }
    }
    Ok(())
}

/// Sends the events of the marks that a step has made, where it made some.
fn send_news<C: CompositorSteps>(compositor: &mut C, board: &mut Board)
    requires room { 0 < board.old.room }
    requires later { last_upto Lane.Compositor board.old.entries < (C.state compositor.old).steps }
    requires sent { (C.state compositor.old).sent ≤ length (C.state compositor.old).marks }
    requires may { MaySend (C.state compositor.old) board.old }
    ensures made { C.state compositor.new ≡ compositor_after_send (C.state compositor.old) }
    ensures board { board.new ≡ board_told (C.state compositor.old) board.old }
{
    if compositor.has_news() {
        compositor.send(board);
    }
}
