//! Both lanes in threads, and the report of their run.

ghost use Rattle.std.specs.Prelude.{◌≡◌, ◌≤◌, IfOk, OnOk, length};
ghost use Rattle.anim_names.specs.declared.lane.Lane.{Lane};
ghost use Rattle.commit_lock.specs.Seats.{fresh_seat};
ghost use Rattle.frame_exchange.specs.Sides.{new_compositor, new_main};
ghost use Rattle.frame_script.specs.Printing.{script_text};
ghost use Rattle.lane_threads.specs.Knowing.{HaveEnded, IsSeatOf, KnowsCompositor, KnowsMain};
ghost use Rattle.run_rules.specs.Runs.{report_of};
ghost use Rattle.run_rules.specs.Scripts.{IsWordOf, event_room};
ghost use Rattle.word_machine.specs.Laws.{KeepsLaws};
ghost use Rattle.word_machine.specs.Moments.{MayReplay, model_count};

use crate::compositor_turns::compositor_lane;
use crate::lane_board::LaneBoard;
use crate::main_turns::main_lane;
use commit_lock::{CommitLock, LaneSeat};
use edge_io::Gate;
use element_samples::Frame;
use frame_exchange::{Board, CompositorSteps, MainSteps};
use frame_report::Report;
use frame_script::Script;
use std::alloc::{AllocError, Global};
use std::sync::Wait;
use std::thread;
use std::thread::Threads;
use word_machine::close;

/// Makes the steps of both lanes, the compositor's in a thread of its own beside the caller's, and then the closing
/// drain; and gives the report, with the word in which the lanes met.
///
/// The two lanes meet behind one lock round the board. It may wait for that lock. Where a lane finds no memory it ends,
/// and the other lane goes on to its own end.
pub fn run_lanes<M: MainSteps, C: CompositorSteps + Send, G: Gate + Sync, R: Threads + Wait + Sync>(
    rt: &R,
    alloc: Global,
    script: &Script,
    main: M,
    compositor: C,
    board: Board,
    gate: &G,
) -> Result<Report, AllocError>
    requires { MayReplay script.now (M.state main) (C.state compositor) board }
    ensures word { IfOk result (λ report. IsWordOf (length script.now.main) (length script.now.compositor) report.word) }
    ensures report { IfOk result (λ report. report ≡ report_of script.now report.word) }
    ensures laws { IfOk result (λ report. KeepsLaws script.now report.word) }
{
    let _well = script.main();
    let shared = LaneBoard::new(script, board);
    let (lock, main_seat, compositor_seat) = CommitLock::new(alloc, shared)?;
    let (main_end, compositor_end) = join_lanes(
        rt,
        alloc,
        script,
        (
            Desk {
                lock: &lock,
                seat: main_seat,
            },
            main,
        ),
        (
            Desk {
                lock: &lock,
                seat: compositor_seat,
            },
            compositor,
        ),
        gate,
    );
    let (main_seat, mut main, counts) = main_end;
    let (compositor_seat, _compositor, frames) = compositor_end;
    let board = lock.close(main_seat, compositor_seat).into_board();
    report_of_end(alloc, script, &mut main, &board, counts?, frames?)
}

// What a lane's thread takes with it: the lock, and the lane's seat there.
#[derive(Drop)]
struct Desk<'a, 's> {
    lock: &'a CommitLock<LaneBoard<'s>>,
    seat: LaneSeat<LaneBoard<'s>>,
}

// Makes all steps of both lanes: the compositor's in a thread of its own, and main's in this one. Each lane gives its
// seat and its side back.
fn join_lanes<
    'a,
    's,
    M: MainSteps,
    C: CompositorSteps + Send,
    G: Gate + Sync,
    R: Threads + Wait + Sync,
>(
    rt: &R,
    alloc: Global,
    script: &Script,
    main: (Desk<'a, 's>, M),
    compositor: (Desk<'a, 's>, C),
    gate: &G,
) -> (
    (LaneSeat<LaneBoard<'s>>, M, Result<Vec<u32>, AllocError>),
    (LaneSeat<LaneBoard<'s>>, C, Result<Vec<Frame>, AllocError>),
)
    requires main_seat { main.0.seat ≡ fresh_seat main.0.lock.now Lane.Main (script_text script.now) }
    requires new_main { M.state main.1 ≡ new_main (M.state main.1).room }
    requires batch_room { event_room script.now ≤ (M.state main.1).room }
    requires compositor_seat { compositor.0.seat ≡ fresh_seat compositor.0.lock.now Lane.Compositor (script_text script.now) }
    requires new_compositor { C.state compositor.1 ≡ new_compositor (C.state compositor.1).models }
    requires models { model_count script.now ≤ (C.state compositor.1).models }
    ensures main_lock { result.0.0.lock ≡ main.entry.0.lock.now }
    ensures main_seat { IsSeatOf script.now Lane.Main result.0.0 }
    ensures main_knows { IfOk result.0.2 (λ counts. KnowsMain script.now result.0.0 (M.state result.0.1) counts.items) }
    ensures main_all { OnOk result.0.2 ((M.state result.0.1).steps ≡ length script.now.main) }
    ensures compositor_lock { result.1.0.lock ≡ compositor.entry.0.lock.now }
    ensures compositor_seat { IsSeatOf script.now Lane.Compositor result.1.0 }
    ensures compositor_knows { IfOk result.1.2 (λ frames. KnowsCompositor script.now result.1.0 (C.state result.1.1) frames.items) }
    ensures compositor_all { OnOk result.1.2 ((C.state result.1.1).steps ≡ length script.now.compositor) }
{
    let (main_desk, main_side) = main;
    let (compositor_desk, compositor_side) = compositor;
    let (compositor_end, main_end) = thread::join(
        rt,
        move || whole_compositor(rt, alloc, compositor_desk, script, compositor_side, gate),
        move || whole_main(rt, alloc, main_desk, script, main_side, gate),
    );
    (main_end, compositor_end)
}

// Main's lane, with a side of its own.
fn whole_main<'a, 's, M: MainSteps, G: Gate, R: Wait>(
    rt: &R,
    alloc: Global,
    desk: Desk<'a, 's>,
    script: &Script,
    mut side: M,
    gate: &G,
) -> (LaneSeat<LaneBoard<'s>>, M, Result<Vec<u32>, AllocError>)
    requires seat { desk.seat ≡ fresh_seat desk.lock.now Lane.Main (script_text script.now) }
    requires new { M.state side ≡ new_main (M.state side).room }
    requires room { event_room script.now ≤ (M.state side).room }
    ensures lock { result.0.lock ≡ desk.entry.lock.now }
    ensures seat { IsSeatOf script.now Lane.Main result.0 }
    ensures knows { IfOk result.2 (λ counts. KnowsMain script.now result.0 (M.state result.1) counts.items) }
    ensures all { OnOk result.2 ((M.state result.1).steps ≡ length script.now.main) }
{
    let Desk { lock, seat } = desk;
    let (seat, counts) = main_lane(rt, alloc, lock, seat, script, &mut side, gate);
    (seat, side, counts)
}

// The compositor's lane, with a side of its own.
fn whole_compositor<'a, 's, C: CompositorSteps, G: Gate, R: Wait>(
    rt: &R,
    alloc: Global,
    desk: Desk<'a, 's>,
    script: &Script,
    mut side: C,
    gate: &G,
) -> (LaneSeat<LaneBoard<'s>>, C, Result<Vec<Frame>, AllocError>)
    requires seat { desk.seat ≡ fresh_seat desk.lock.now Lane.Compositor (script_text script.now) }
    requires new { C.state side ≡ new_compositor (C.state side).models }
    requires models { model_count script.now ≤ (C.state side).models }
    ensures lock { result.0.lock ≡ desk.entry.lock.now }
    ensures seat { IsSeatOf script.now Lane.Compositor result.0 }
    ensures knows { IfOk result.2 (λ frames. KnowsCompositor script.now result.0 (C.state result.1) frames.items) }
    ensures all { OnOk result.2 ((C.state result.1).steps ≡ length script.now.compositor) }
{
    let Desk { lock, seat } = desk;
    let (seat, frames) = compositor_lane(rt, alloc, lock, seat, script, &mut side, gate);
    (seat, side, frames)
}

// The closing drain, and the report of a run whose lanes have ended.
fn report_of_end<M: MainSteps>(
    alloc: Global,
    script: &Script,
    main: &mut M,
    board: &Board,
    mut counts: Vec<u32>,
    frames: Vec<Frame>,
) -> Result<Report, AllocError>
    requires { HaveEnded script.now board.now (M.state main.old) counts.items frames.items }
    ensures word { IfOk result (λ report. IsWordOf (length script.now.main) (length script.now.compositor) report.word) }
    ensures report { IfOk result (λ report. report ≡ report_of script.now report.word) }
    ensures laws { IfOk result (λ report. KeepsLaws script.now report.word) }
{
    let (main_steps, compositor_steps) = (script.main().len(), script.compositor().len());
    close(main, board, &mut counts)?;
    let word = board.word(alloc, main_steps as u32, compositor_steps as u32)?;
    let events = Vec::from_slice(alloc, board.events())?;
    Ok(Report::new(word, frames, events, counts))
}
