//! Both lanes one after the other, on one thread, under the lock.

ghost use Rattle.std.specs.Prelude.{◌≡◌, ◌+◌, ◌*◌, ◌≤◌, [], IfOk, length};
ghost use Rattle.anim_delegate.specs.Delegates.{MayAsk, FollowsTable};
ghost use Rattle.anim_names.specs.declared.limit.TheConstants.{MOST_MODELS};
ghost use Rattle.easing_fixed.specs.Evaluators.{MayEase, Eases};
ghost use Rattle.word_machine.specs.Moments.{MayReplay};

use anim_delegate::{Delegate, Policy, VerdictFunction};
use anim_names::Lane;
use anim_names::limit::MOST_MODELS;
use commit_lock::CommitLock;
use easing_fixed::{Easing, EasingFunction, Evaluator};
use edge_io::IdleGate;
use frame_exchange::{Board, CompositorSteps, MainSteps};
use frame_script::Script;
use lane_threads::{LaneBoard, compositor_lane, main_lane};
use script_reader::read_script;
use side_compositor::CompositorSide;
use side_main::MainSide;
use std::alloc::{AllocError, Global};
use std::process::Abort;
use std::sync::Wait;
use std::test::Fail;
use test_scripts::FADE;

// A keyframe model has two events at most.
const MOST_EVENTS: u32 = 2 * MOST_MODELS;

#[test]
fn the_lanes_also_meet_on_one_thread(rt: HostRuntime) -> Result<(), Fail> {
    let script = read_script(rt.alloc(), FADE.as_bytes())?;
    let (count, board) = in_turn_with(&rt, rt.alloc(), &script, Policy::verdict_on, Easing::value)?;
    // A publish, a pull, and a send of the event that the model started.
    assert!(rt; count == 3);
    expect_main_first(&rt, rt.alloc(), &board)?;
    Ok(())
}

// The word has main's four steps, and then the compositor's five.
fn expect_main_first(rt: &impl Abort, alloc: Global, board: &Board) -> Result<(), AllocError> {
    let word = board.word(alloc, 4, 5)?;
    assert!(rt; word.len() == 9);
    assert!(rt; word[..4] == [Lane::Main; 4]);
    assert!(rt; word[4..] == [Lane::Compositor; 5]);
    Ok(())
}

/// Calls `in_turn` with these functions as hooks, on new sides and a new board.
fn in_turn_with<R: Wait, F: VerdictFunction + Drop, E: EasingFunction + Drop>(
    rt: &R,
    alloc: Global,
    script: &Script,
    verdict: F,
    ease: E,
) -> Result<(usize, Board), AllocError>
    requires may_be_asked { MayAsk (F.asks verdict) }
    requires follows_the_table { FollowsTable (F.answers verdict) }
    requires may_ease { MayEase (E.asks ease) }
    requires eases { Eases (E.answers ease) }
{
    let _well = script.main();
    let delegate = Delegate::new(verdict);
    let evaluator = Evaluator::new(ease);
    let main = MainSide::new(alloc, MOST_EVENTS, &delegate)?;
    let compositor = CompositorSide::new(alloc, MOST_MODELS, &evaluator)?;
    let board = board_for(alloc, script)?;
    in_turn(rt, alloc, script, main, compositor, board)
}

/// A board with room for an entry a step and for the most events.
fn board_for(alloc: Global, script: &Script) -> Result<Board, AllocError>
    ensures no_entry { IfOk result (λ board. board.entries ≡ []) }
    ensures entry_room { IfOk result (λ board. length script.now.main + length script.now.compositor ≤ board.room) }
    ensures event_room { IfOk result (λ board. 2 * MOST_MODELS ≤ board.queue.room) }
{
    let mut board = Board::new(alloc);
    board.reserve(step_count(script), MOST_EVENTS)?;
    Ok(board)
}

fn step_count(script: &Script) -> u32
    ensures { result ≡ length script.now.main + length script.now.compositor }
{
    (script.main().len() + script.compositor().len()) as u32
}

/// Makes all of main's steps, and then all of the compositor's. Gives the board and how many entries it has.
fn in_turn<R: Wait, M: MainSteps, C: CompositorSteps>(
    rt: &R,
    alloc: Global,
    script: &Script,
    mut main: M,
    mut compositor: C,
    board: Board,
) -> Result<(usize, Board), AllocError>
    requires { MayReplay script.now (M.state main) (C.state compositor) board }
{
    let (lock, seat, other) = CommitLock::new(alloc, LaneBoard::new(script, board))?;
    let (seat, counts) = main_lane(rt, alloc, &lock, seat, script, &mut main, &IdleGate);
    let (other, frames) = compositor_lane(
        rt,
        alloc,
        &lock,
        other,
        script,
        &mut compositor,
        &IdleGate,
    );
    let closed = lock.close(seat, other);
    counts?;
    frames?;
    Ok((closed.board().entry_count(), closed.into_board()))
}
