//! Main's lane: all of its steps, in order.

ghost use Rattle.std.specs.Prelude.{◌≡◌, ◌+◌, ◌<◌, ◌≤◌, IfOk, OnOk, length};
ghost use Rattle.anim_names.specs.declared.lane.Lane.{Lane};
ghost use Rattle.commit_lock.specs.Seats.{fresh_seat};
ghost use Rattle.frame_exchange.specs.Sides.{new_main};
ghost use Rattle.frame_script.specs.Printing.{script_text};
ghost use Rattle.lane_threads.specs.Knowing.{IsNextOfMain, IsSeatOf, KnowsMain};
ghost use Rattle.lane_threads.specs.Sections.{HasBuilt, HasDrained};
ghost use Rattle.run_rules.specs.Scripts.{CommitStep, DrainStep, EditStep, event_room};
ghost use Rattle.tree_commit.specs.Views.{change_of};
ghost use Rattle.run_rules.specs.Views.{step_of};

use crate::lane_board::LaneBoard;
use anim_names::Lane;
use commit_lock::{CommitLock, LaneSeat};
use edge_io::Gate;
use frame_exchange::MainSteps;
use frame_script::Script;
use run_rules::MainStep;
use std::alloc::{AllocError, Global};
use std::sync::{Arc, Wait};
use tree_commit::{Commit, Edit};
use word_machine::make_edit;

/// Makes all of main's steps, and gives how many events main has heard after each drain.
///
/// Before each step it passes the gate. A commit and a drain have one section of the lock each, with one call on the
/// board; all else is made outside. It may wait for the lock. Where memory runs out the lane ends: the seat comes back,
/// and nothing more is said of the side.
pub fn main_lane<'s, M: MainSteps, G: Gate, R: Wait>(
    rt: &R,
    alloc: Global,
    lock: &CommitLock<LaneBoard<'s>>,
    mut seat: LaneSeat<LaneBoard<'s>>,
    script: &Script,
    side: &mut M,
    gate: &G,
) -> (LaneSeat<LaneBoard<'s>>, Result<Vec<u32>, AllocError>)
    requires seat { seat ≡ fresh_seat lock.now Lane.Main (script_text script.now) }
    requires new { M.state side.old ≡ new_main (M.state side.old).room }
    requires room { event_room script.now ≤ (M.state side.old).room }
    ensures lock { result.0.lock ≡ lock.now }

    // The seat's journal is the history of the run after its own word, and main's entries in it are those of its steps.
    ensures seat { IsSeatOf script.now Lane.Main result.0 }

    // The side and the counts are those of the run after that word and main's last steps, which left the board as it
    // was, however many steps the compositor has made meanwhile; and no step of main is left.
    ensures knows { IfOk result.1 (λ counts. KnowsMain script.now result.0 (M.state side.new) counts.items) }
    ensures all { OnOk result.1 ((M.state side.new).steps ≡ length script.now.main) }
{
    let steps = script.main();
    let mut counts = Vec::new(alloc);
    for number in 0..steps.len() {
        gate.pass(Lane::Main, number as u32);
        let (after, made) = turn(rt, lock, seat, script, &steps[number], side, &mut counts);
        seat = after;
        if let Err(full) = made {
            return (seat, Err(full));
        }
    }
    (seat, Ok(counts))
}

// Makes main's next step.
fn turn<'s, M: MainSteps, R: Wait>(
    rt: &R,
    lock: &CommitLock<LaneBoard<'s>>,
    seat: LaneSeat<LaneBoard<'s>>,
    script: &Script,
    step: &MainStep,
    main: &mut M,
    counts: &mut Vec<u32>,
) -> (LaneSeat<LaneBoard<'s>>, Result<(), AllocError>)
    requires lock { seat.lock ≡ lock.now }
    requires knows { KnowsMain script.now seat (M.state main.old) counts.old.items }
    requires next { IsNextOfMain script.now (M.state main.old).steps (step_of step.now) }
    ensures lock { result.0.lock ≡ lock.now }
    ensures seat { IsSeatOf script.now Lane.Main result.0 }
    ensures knows { OnOk result.1 (KnowsMain script.now result.0 (M.state main.new) counts.new.items) }
    ensures steps { OnOk result.1 ((M.state main.new).steps ≡ (M.state main.old).steps + 1) }
{
    match step {
        MainStep::Edit(edit) => {
            let made = edit_ahead(edit, script, &seat, main, counts);
            (seat, made)
        }
        MainStep::Commit => make_commit(rt, lock, seat, script, main, counts),
        MainStep::Drain => make_drain(rt, lock, seat, script, main, counts),
    }
}

// Makes an edit, which takes no section.
fn edit_ahead<'s, M: MainSteps>(
    edit: &Edit,
    script: &Script,
    seat: &LaneSeat<LaneBoard<'s>>,
    main: &mut M,
    counts: &Vec<u32>,
) -> Result<(), AllocError>
    requires knows { KnowsMain script.now seat.now (M.state main.old) counts.now.items }
    requires next { IsNextOfMain script.now (M.state main.old).steps (EditStep (change_of edit.now)) }
    ensures knows { OnOk result (KnowsMain script.now seat.now (M.state main.new) counts.now.items) }
    ensures steps { OnOk result ((M.state main.new).steps ≡ (M.state main.old).steps + 1) }
{
    let _well = script.main();
    make_edit(edit, main)
}

// Builds a commit outside, and publishes it in a section.
fn make_commit<'s, M: MainSteps, R: Wait>(
    rt: &R,
    lock: &CommitLock<LaneBoard<'s>>,
    seat: LaneSeat<LaneBoard<'s>>,
    script: &Script,
    main: &mut M,
    counts: &Vec<u32>,
) -> (LaneSeat<LaneBoard<'s>>, Result<(), AllocError>)
    requires lock { seat.lock ≡ lock.now }
    requires knows { KnowsMain script.now seat (M.state main.old) counts.now.items }
    requires next { IsNextOfMain script.now (M.state main.old).steps CommitStep }
    ensures lock { result.0.lock ≡ lock.now }
    ensures seat { IsSeatOf script.now Lane.Main result.0 }
    ensures knows { OnOk result.1 (KnowsMain script.now result.0 (M.state main.new) counts.now.items) }
    ensures steps { OnOk result.1 ((M.state main.new).steps ≡ (M.state main.old).steps + 1) }
{
    let _well = script.main();
    match main.build() {
        Ok(commit) => (
            publish(rt, lock, seat, script, main, commit, counts),
            Ok(()),
        ),
        Err(full) => (seat, Err(full)),
    }
}

// The section of a commit.
fn publish<'s, M: MainSteps, R: Wait>(
    rt: &R,
    lock: &CommitLock<LaneBoard<'s>>,
    seat: LaneSeat<LaneBoard<'s>>,
    script: &Script,
    main: &mut M,
    commit: Arc<Commit>,
    counts: &Vec<u32>,
) -> LaneSeat<LaneBoard<'s>>
    requires lock { seat.lock ≡ lock.now }
    requires built { HasBuilt script.now seat (M.state main.old) commit.value counts.now.items }
    ensures lock { result.lock ≡ lock.now }
    ensures knows { KnowsMain script.now result (M.state main.new) counts.now.items }
    ensures steps { (M.state main.new).steps ≡ (M.state main.old).steps + 1 }
{
    let _well = script.main();
    let mut held = lock.acquire(rt, seat);
    held.value().publish(script, main, commit);
    lock.release(held)
}

// Drains in a section, and hears outside what was drained.
fn make_drain<'s, M: MainSteps, R: Wait>(
    rt: &R,
    lock: &CommitLock<LaneBoard<'s>>,
    seat: LaneSeat<LaneBoard<'s>>,
    script: &Script,
    main: &mut M,
    counts: &mut Vec<u32>,
) -> (LaneSeat<LaneBoard<'s>>, Result<(), AllocError>)
    requires lock { seat.lock ≡ lock.now }
    requires knows { KnowsMain script.now seat (M.state main.old) counts.old.items }
    requires next { IsNextOfMain script.now (M.state main.old).steps DrainStep }
    ensures lock { result.0.lock ≡ lock.now }
    ensures seat { IsSeatOf script.now Lane.Main result.0 }
    ensures knows { OnOk result.1 (KnowsMain script.now result.0 (M.state main.new) counts.new.items) }
    ensures steps { OnOk result.1 ((M.state main.new).steps ≡ (M.state main.old).steps + 1) }
{
    let seat = drain(rt, lock, seat, script, main, counts);
    main.hear();
    match counts.push(main.heard() as u32) {
        Ok(()) => (seat, Ok(())),
        Err(_) => (seat, Err(AllocError)),
    }
}

// The section of a drain.
fn drain<'s, M: MainSteps, R: Wait>(
    rt: &R,
    lock: &CommitLock<LaneBoard<'s>>,
    seat: LaneSeat<LaneBoard<'s>>,
    script: &Script,
    main: &mut M,
    counts: &Vec<u32>,
) -> LaneSeat<LaneBoard<'s>>
    requires lock { seat.lock ≡ lock.now }
    requires knows { KnowsMain script.now seat (M.state main.old) counts.now.items }
    requires next { IsNextOfMain script.now (M.state main.old).steps DrainStep }
    ensures lock { result.lock ≡ lock.now }
    ensures drained { HasDrained script.now result (M.state main.new) counts.now.items }
    ensures steps { (M.state main.new).steps ≡ (M.state main.old).steps + 1 }
{
    let _well = script.main();
    let mut held = lock.acquire(rt, seat);
    held.value().drain(script, main);
    lock.release(held)
}
