//! The lock between the lanes: a hundred sections of each, and the journal that they leave.

use crate::diary::Diary;
use crate::lanes::{note_both, note_in_turn};
use anim_names::{Entry, Lane};
use std::process::Abort;
use std::test::Fail;

const SECTIONS: u32 = 100;

// The journal has 200 entries. Each lane's are its own, in the order in which it made them.
fn expect_all(rt: &impl Abort, entries: &[Entry]) {
    assert!(rt; entries.len() == 200);
    expect_own(rt, entries, Lane::Main);
    expect_own(rt, entries, Lane::Compositor);
}

fn expect_own(rt: &impl Abort, entries: &[Entry], lane: Lane) {
    let mut made = 0u32;
    for entry in entries {
        if entry.lane == lane {
            made = made.wrapping_add(1);
            assert_eq!(rt; entry.upto, made);
        }
    }
    assert!(rt; made == SECTIONS);
}

// The lanes take turns.
fn expect_in_turn(rt: &impl Abort, entries: &[Entry]) {
    for pair in entries.windows(2) {
        assert!(rt; pair[0].lane != pair[1].lane);
    }
}

#[test]
fn two_threads_make_a_hundred_sections_each(rt: HostRuntime) -> Result<(), Fail> {
    let diary = note_both(&rt, rt.alloc(), Diary::new(rt.alloc(), 7), SECTIONS)?;
    expect_all(&rt, diary.entries());
    Ok(())
}

#[test]
fn one_thread_makes_the_sections_of_both_lanes(rt: HostRuntime) -> Result<(), Fail> {
    let diary = note_in_turn(&rt, rt.alloc(), Diary::new(rt.alloc(), 7), SECTIONS)?;
    expect_all(&rt, diary.entries());
    expect_in_turn(&rt, diary.entries());
    Ok(())
}
