//! The compositor's lane: all of its steps, in order.

ghost use Rattle.std.specs.Prelude.{◌≡◌, ◌+◌, ◌<◌, ◌≤◌, IfOk, OnOk, length};
ghost use Rattle.anim_names.specs.declared.lane.Lane.{Lane};
ghost use Rattle.commit_lock.specs.Seats.{fresh_seat};
ghost use Rattle.frame_exchange.specs.Sides.{new_compositor};
ghost use Rattle.frame_script.specs.Printing.{script_text};
ghost use Rattle.lane_threads.specs.Knowing.{IsNextOfCompositor, IsSeatOf, KnowsCompositor};
ghost use Rattle.lane_threads.specs.Sections.{HasMarked, HasPulled};
ghost use Rattle.run_rules.specs.declared.compositor_step.CompositorStep.{CompositorStep};
ghost use Rattle.word_machine.specs.Moments.{model_count};

use crate::lane_board::LaneBoard;
use anim_names::Lane;
use commit_lock::{CommitLock, LaneSeat};
use edge_io::Gate;
use element_samples::Frame;
use frame_exchange::CompositorSteps;
use frame_script::Script;
use run_rules::CompositorStep;
use std::alloc::{AllocError, Global};
use std::sync::Wait;

/// Makes all of the compositor's steps, and gives the frames of its ticks.
///
/// Before each step it passes the gate. A pull has one section of the lock, and so has a tick or an activation that
/// made marks; each has one call on the board, and all else is made outside. It may wait for the lock. Where memory
/// runs out the lane ends: the seat comes back, and nothing more is said of the side.
pub fn compositor_lane<'s, C: CompositorSteps, G: Gate, R: Wait>(
    rt: &R,
    alloc: Global,
    lock: &CommitLock<LaneBoard<'s>>,
    mut seat: LaneSeat<LaneBoard<'s>>,
    script: &Script,
    side: &mut C,
    gate: &G,
) -> (LaneSeat<LaneBoard<'s>>, Result<Vec<Frame>, AllocError>)
    requires seat { seat ≡ fresh_seat lock.now Lane.Compositor (script_text script.now) }
    requires new { C.state side.old ≡ new_compositor (C.state side.old).models }
    requires models { model_count script.now ≤ (C.state side.old).models }
    ensures lock { result.0.lock ≡ lock.now }

    // The seat's journal is the history of the run after its own word, and the compositor's entries in it are those of
    // its steps.
    ensures seat { IsSeatOf script.now Lane.Compositor result.0 }

    // The side and the frames are those of the run after that word and the compositor's last steps, which left the
    // board as it was, however many steps main has made meanwhile; and no step of the compositor is left.
    ensures knows { IfOk result.1 (λ frames. KnowsCompositor script.now result.0 (C.state side.new) frames.items) }
    ensures all { OnOk result.1 ((C.state side.new).steps ≡ length script.now.compositor) }
{
    let _well = script.main();
    let steps = script.compositor();
    let mut frames = Vec::new(alloc);
    for number in 0..steps.len() {
        gate.pass(Lane::Compositor, number as u32);
        let (after, made) = turn(rt, lock, seat, script, steps[number], side, &mut frames);
        seat = after;
        if let Err(full) = made {
            return (seat, Err(full));
        }
    }
    (seat, Ok(frames))
}

// Makes the compositor's next step.
fn turn<'s, C: CompositorSteps, R: Wait>(
    rt: &R,
    lock: &CommitLock<LaneBoard<'s>>,
    seat: LaneSeat<LaneBoard<'s>>,
    script: &Script,
    step: CompositorStep,
    compositor: &mut C,
    frames: &mut Vec<Frame>,
) -> (LaneSeat<LaneBoard<'s>>, Result<(), AllocError>)
    requires lock { seat.lock ≡ lock.now }
    requires knows { KnowsCompositor script.now seat (C.state compositor.old) frames.old.items }
    requires next { IsNextOfCompositor script.now (C.state compositor.old).steps step }
    ensures lock { result.0.lock ≡ lock.now }
    ensures seat { IsSeatOf script.now Lane.Compositor result.0 }
    ensures knows { OnOk result.1 (KnowsCompositor script.now result.0 (C.state compositor.new) frames.new.items) }
    ensures steps { OnOk result.1 ((C.state compositor.new).steps ≡ (C.state compositor.old).steps + 1) }
{
    match step {
        CompositorStep::Pull => make_pull(rt, lock, seat, script, compositor, frames),
        CompositorStep::Activate => {
            let seat = make_activation(rt, lock, seat, script, compositor, frames);
            (seat, Ok(()))
        }
        CompositorStep::Tick(time) => make_tick(rt, lock, seat, script, time, compositor, frames),
    }
}

// Pulls in a section, and places outside what that found.
fn make_pull<'s, C: CompositorSteps, R: Wait>(
    rt: &R,
    lock: &CommitLock<LaneBoard<'s>>,
    seat: LaneSeat<LaneBoard<'s>>,
    script: &Script,
    compositor: &mut C,
    frames: &Vec<Frame>,
) -> (LaneSeat<LaneBoard<'s>>, Result<(), AllocError>)
    requires lock { seat.lock ≡ lock.now }
    requires knows { KnowsCompositor script.now seat (C.state compositor.old) frames.now.items }
    requires next { IsNextOfCompositor script.now (C.state compositor.old).steps CompositorStep.Pull }
    ensures lock { result.0.lock ≡ lock.now }
    ensures seat { IsSeatOf script.now Lane.Compositor result.0 }
    ensures knows { OnOk result.1 (KnowsCompositor script.now result.0 (C.state compositor.new) frames.now.items) }
    ensures steps { OnOk result.1 ((C.state compositor.new).steps ≡ (C.state compositor.old).steps + 1) }
{
    let (seat, found) = pull(rt, lock, seat, script, compositor, frames);
    if !found {
        return (seat, Ok(()));
    }
    let placed = compositor.place();
    (seat, placed)
}

// The section of a pull. It tells whether a commit was found.
fn pull<'s, C: CompositorSteps, R: Wait>(
    rt: &R,
    lock: &CommitLock<LaneBoard<'s>>,
    seat: LaneSeat<LaneBoard<'s>>,
    script: &Script,
    compositor: &mut C,
    frames: &Vec<Frame>,
) -> (LaneSeat<LaneBoard<'s>>, bool)
    requires lock { seat.lock ≡ lock.now }
    requires knows { KnowsCompositor script.now seat (C.state compositor.old) frames.now.items }
    requires next { IsNextOfCompositor script.now (C.state compositor.old).steps CompositorStep.Pull }
    ensures lock { result.0.lock ≡ lock.now }
    ensures pulled { HasPulled script.now result.0 (C.state compositor.new) result.1 frames.now.items }
    ensures steps { (C.state compositor.new).steps ≡ (C.state compositor.old).steps + 1 }
{
    let _well = script.main();
    let mut held = lock.acquire(rt, seat);
    let found = held.value().pull(script, compositor);
    (lock.release(held), found)
}

// Activates outside, and sends the news of that in a section.
fn make_activation<'s, C: CompositorSteps, R: Wait>(
    rt: &R,
    lock: &CommitLock<LaneBoard<'s>>,
    seat: LaneSeat<LaneBoard<'s>>,
    script: &Script,
    compositor: &mut C,
    frames: &Vec<Frame>,
) -> LaneSeat<LaneBoard<'s>>
    requires lock { seat.lock ≡ lock.now }
    requires knows { KnowsCompositor script.now seat (C.state compositor.old) frames.now.items }
    requires next { IsNextOfCompositor script.now (C.state compositor.old).steps CompositorStep.Activate }
    ensures lock { result.lock ≡ lock.now }
    ensures knows { KnowsCompositor script.now result (C.state compositor.new) frames.now.items }
    ensures steps { (C.state compositor.new).steps ≡ (C.state compositor.old).steps + 1 }
{
    let _well = script.main();
    compositor.activate();
    send_news(rt, lock, seat, script, compositor, frames)
}

// Makes a tick outside, and sends the news of that in a section.
fn make_tick<'s, C: CompositorSteps, R: Wait>(
    rt: &R,
    lock: &CommitLock<LaneBoard<'s>>,
    seat: LaneSeat<LaneBoard<'s>>,
    script: &Script,
    time: u64,
    compositor: &mut C,
    frames: &mut Vec<Frame>,
) -> (LaneSeat<LaneBoard<'s>>, Result<(), AllocError>)
    requires lock { seat.lock ≡ lock.now }
    requires knows { KnowsCompositor script.now seat (C.state compositor.old) frames.old.items }
    requires next { IsNextOfCompositor script.now (C.state compositor.old).steps (CompositorStep.Tick time) }
    ensures lock { result.0.lock ≡ lock.now }
    ensures seat { IsSeatOf script.now Lane.Compositor result.0 }
    ensures knows { OnOk result.1 (KnowsCompositor script.now result.0 (C.state compositor.new) frames.new.items) }
    ensures steps { OnOk result.1 ((C.state compositor.new).steps ≡ (C.state compositor.old).steps + 1) }
{
    match draw(script, &seat, time, compositor, frames) {
        Ok(()) => (
            send_news(rt, lock, seat, script, compositor, frames),
            Ok(()),
        ),
        Err(full) => (seat, Err(full)),
    }
}

// Makes the marks of a tick, and puts its frame behind the others.
fn draw<'s, C: CompositorSteps>(
    script: &Script,
    seat: &LaneSeat<LaneBoard<'s>>,
    time: u64,
    compositor: &mut C,
    frames: &mut Vec<Frame>,
) -> Result<(), AllocError>
    requires knows { KnowsCompositor script.now seat.now (C.state compositor.old) frames.old.items }
    requires next { IsNextOfCompositor script.now (C.state compositor.old).steps (CompositorStep.Tick time) }
    ensures marked { OnOk result (HasMarked script.now seat.now (C.state compositor.new) frames.new.items) }
    ensures steps { OnOk result ((C.state compositor.new).steps ≡ (C.state compositor.old).steps + 1) }
{
    let _well = script.main();
    let frame = compositor.tick(time)?;
    frames.push(frame)?;
    Ok(())
}

// Sends the news of the marks that a step has made, where it made some.
fn send_news<'s, C: CompositorSteps, R: Wait>(
    rt: &R,
    lock: &CommitLock<LaneBoard<'s>>,
    seat: LaneSeat<LaneBoard<'s>>,
    script: &Script,
    compositor: &mut C,
    frames: &Vec<Frame>,
) -> LaneSeat<LaneBoard<'s>>
    requires lock { seat.lock ≡ lock.now }
    requires marked { HasMarked script.now seat (C.state compositor.old) frames.now.items }
    ensures lock { result.lock ≡ lock.now }
    ensures knows { KnowsCompositor script.now result (C.state compositor.new) frames.now.items }
    ensures steps { (C.state compositor.new).steps ≡ (C.state compositor.old).steps }
{
    let _well = script.main();
    if compositor.has_news() {
        send(rt, lock, seat, script, compositor, frames)
    } else {
        seat
    }
}

// The section in which news are sent.
fn send<'s, C: CompositorSteps, R: Wait>(
    rt: &R,
    lock: &CommitLock<LaneBoard<'s>>,
    seat: LaneSeat<LaneBoard<'s>>,
    script: &Script,
    compositor: &mut C,
    frames: &Vec<Frame>,
) -> LaneSeat<LaneBoard<'s>>
    requires lock { seat.lock ≡ lock.now }
    requires marked { HasMarked script.now seat (C.state compositor.old) frames.now.items }
    requires news { (C.state compositor.old).sent < length (C.state compositor.old).marks }
    ensures lock { result.lock ≡ lock.now }
    ensures knows { KnowsCompositor script.now result (C.state compositor.new) frames.now.items }
    ensures steps { (C.state compositor.new).steps ≡ (C.state compositor.old).steps }
{
    let _well = script.main();
    let mut held = lock.acquire(rt, seat);
    held.value().send(script, compositor);
    lock.release(held)
}
