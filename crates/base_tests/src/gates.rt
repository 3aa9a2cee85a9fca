//! The gates before the steps of lanes, alone and with both lanes.

use anim_names::Lane;
use edge_io::{Gate, HoldGate, IdleGate, MeetGate};
use std::sync::atomic::{AtomicU32, Ordering};
use std::thread;

// How many looks a lane has where nobody comes.
const FEW: u32 = 1000;

fn pass_first_steps<G: Gate>(gate: &G, lane: Lane, count: u32) {
    for step in 0..count {
        gate.pass(lane, step);
    }
}

// Each step is counted once its lane has passed.
fn count_first_steps<G: Gate>(gate: &G, lane: Lane, count: u32, made: &AtomicU32) {
    for step in 0..count {
        gate.pass(lane, step);
        made.fetch_add(1, Ordering::SeqCst);
    }
}

#[test]
fn a_lane_alone_passes_the_gate_of_the_program() {
    pass_first_steps(&IdleGate, Lane::Main, 5);
    pass_first_steps(&IdleGate, Lane::Compositor, 5);
}

#[test]
fn a_lane_alone_gives_up_before_its_first_step(rt: HostRuntime) {
    let gate = MeetGate::with_turns(FEW);
    gate.pass(Lane::Main, 1);
    assert!(rt; !gate.gave_up());
    gate.pass(Lane::Main, 0);
    assert!(rt; gate.gave_up());
    gate.pass(Lane::Compositor, 0);
    assert!(rt; !gate.met());
}

#[test]
fn two_lanes_meet_before_their_first_steps(rt: HostRuntime) {
    let gate = MeetGate::new();
    thread::join(
        &rt,
        || pass_first_steps(&gate, Lane::Main, 2),
        || pass_first_steps(&gate, Lane::Compositor, 2),
    );
    assert!(rt; gate.met());
    assert!(rt; !gate.gave_up());
}

#[test]
fn main_held_alone_gives_up_before_the_step_that_was_said(rt: HostRuntime) {
    let gate = HoldGate::with_turns(2, FEW);
    pass_first_steps(&gate, Lane::Main, 2);
    assert!(rt; !gate.gave_up());
    gate.pass(Lane::Main, 2);
    assert!(rt; gate.gave_up());
    assert!(rt; !gate.met());
}

#[test]
fn the_compositor_held_alone_gives_up_before_its_first_step(rt: HostRuntime) {
    let gate = HoldGate::with_turns(2, FEW);
    gate.pass(Lane::Compositor, 1);
    assert!(rt; !gate.gave_up());
    gate.pass(Lane::Compositor, 0);
    assert!(rt; gate.gave_up());
    assert!(rt; !gate.met());
}

#[test]
fn two_lanes_that_are_held_go_in_turn(rt: HostRuntime) {
    let gate = HoldGate::new(2);
    let (main, compositor) = (AtomicU32::new(0), AtomicU32::new(0));
    let (seen_by_main, seen_by_compositor) = thread::join(
        &rt,
        || {
            count_first_steps(&gate, Lane::Main, 3, &main);
            compositor.load(Ordering::SeqCst)
        },
        || {
            gate.pass(Lane::Compositor, 0);
            let seen = main.load(Ordering::SeqCst);
            count_first_steps(&gate, Lane::Compositor, 4, &compositor);
            seen
        },
    );
    assert!(rt; gate.met());
    assert!(rt; !gate.gave_up());
    assert!(rt; seen_by_compositor >= 2);
    assert!(rt; seen_by_main >= 3);
}
