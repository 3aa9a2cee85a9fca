//! The board between the lanes: what its calls give, and the word of its journal.

use crate::samples::bare_commit;
use anim_names::limit::MOST_COMMITS;
use anim_names::{AnimEvent, Entry, EntryKind, Lane, ModelId};
use frame_exchange::{Board, PendingSlot};
use std::process::Abort;
use std::sync::Arc;
use std::test::Fail;
use tree_commit::Commit;

fn publish(rt: &impl Abort, board: &mut Board, upto: u32, commit: Arc<Commit>) {
    assert!(rt; board.published() < MOST_COMMITS);
    assert!(rt; commit.number() == board.published() + 1);
    assert!(rt; board.spare_entries() > 0);
    assert!(rt; board.last_upto(Lane::Main) < upto);
    board.publish(upto, commit);
}

// The number of the commit that a pull gives.
fn pull(rt: &impl Abort, board: &mut Board, upto: u32, pending: PendingSlot) -> Option<u32> {
    assert!(rt; board.spare_entries() > 0);
    assert!(rt; board.last_upto(Lane::Compositor) < upto);
    board.pull(upto, pending).map(|commit| commit.number())
}

fn expect_entry(rt: &impl Abort, board: &Board, i: usize, entry: Entry) {
    assert!(rt; i < board.entry_count());
    assert!(rt; board.entry_at(i) == entry);
}

#[test]
fn the_newest_of_two_commits_is_pulled_once(rt: HostRuntime) -> Result<(), Fail> {
    let mut board = Board::new(rt.alloc());
    board.reserve(4, 3)?;
    publish(&rt, &mut board, 2, bare_commit(rt.alloc(), 1)?);
    publish(&rt, &mut board, 5, bare_commit(rt.alloc(), 2)?);
    assert!(rt; pull(&rt, &mut board, 1, PendingSlot::Free) == Some(2));
    assert!(rt; pull(&rt, &mut board, 2, PendingSlot::Free) == None);
    assert!(rt; board.entry_count() == 4);
    expect_entry(
        &rt,
        &board,
        1,
        Entry {
            lane: Lane::Main,
            upto: 5,
            kind: EntryKind::Publish { number: 2 },
        },
    );
    expect_entry(
        &rt,
        &board,
        3,
        Entry {
            lane: Lane::Compositor,
            upto: 2,
            kind: EntryKind::Pull { number: None },
        },
    );
    Ok(())
}

#[test]
fn a_pull_over_a_pending_commit_gives_nothing(rt: HostRuntime) -> Result<(), Fail> {
    let mut board = Board::new(rt.alloc());
    board.reserve(4, 3)?;
    assert!(rt; pull(&rt, &mut board, 1, PendingSlot::Free) == None);
    publish(&rt, &mut board, 1, bare_commit(rt.alloc(), 1)?);
    assert!(rt; pull(&rt, &mut board, 2, PendingSlot::Taken) == None);
    assert!(rt; pull(&rt, &mut board, 3, PendingSlot::Free) == Some(1));
    Ok(())
}

// Main's second step, the compositor's first and third, main's fifth: M M C C C M M M, and then the rest of both.
#[test]
fn a_journal_has_a_word(rt: HostRuntime) -> Result<(), Fail> {
    let mut board = Board::new(rt.alloc());
    board.reserve(4, 3)?;
    publish(&rt, &mut board, 2, bare_commit(rt.alloc(), 1)?);
    assert!(rt; pull(&rt, &mut board, 1, PendingSlot::Free) == Some(1));
    assert!(rt; pull(&rt, &mut board, 3, PendingSlot::Taken) == None);
    publish(&rt, &mut board, 5, bare_commit(rt.alloc(), 2)?);
    let word = board.word(rt.alloc(), 6, 4)?;
    let main = Lane::Main;
    let compositor = Lane::Compositor;
    let expected = [
        main, main, compositor, compositor, compositor, main, main, main, main, compositor,
    ];
    assert!(rt; word.as_slice() == expected.as_slice());
    Ok(())
}

fn finished(model: u32) -> AnimEvent {
    AnimEvent::Finished {
        model: ModelId(model),
        at: 5,
    }
}

fn send(rt: &impl Abort, board: &mut Board, upto: u32, events: &[AnimEvent]) {
    assert!(rt; board.events().len() < 1000);
    assert!(rt; events.len() < 1000);
    assert!(rt; !events.is_empty());
    assert!(rt; events.len() <= board.spare_events());
    assert!(rt; board.spare_entries() > 0);
    assert!(rt; board.last_upto(Lane::Compositor) < upto);
    board.send(upto, events);
}

fn drain(rt: &impl Abort, board: &mut Board, upto: u32, heard: &mut Vec<AnimEvent>) -> usize {
    assert!(rt; heard.capacity() - heard.len() >= board.unheard());
    assert!(rt; board.spare_entries() > 0);
    assert!(rt; board.last_upto(Lane::Main) < upto);
    board.drain(upto, heard)
}

fn drain_last(rt: &impl Abort, board: &Board, heard: &mut Vec<AnimEvent>) -> usize {
    assert!(rt; heard.capacity() - heard.len() >= board.unheard());
    board.drain_last(heard)
}

#[test]
fn each_event_is_drained_once(rt: HostRuntime) -> Result<(), Fail> {
    let mut board = Board::new(rt.alloc());
    board.reserve(4, 3)?;
    let mut heard = Vec::with_capacity(rt.alloc(), 3)?;
    send(&rt, &mut board, 2, &[finished(1), finished(2)]);
    assert!(rt; drain(&rt, &mut board, 1, &mut heard) == 2);
    assert!(rt; drain(&rt, &mut board, 2, &mut heard) == 0);
    send(&rt, &mut board, 3, &[finished(3)]);
    assert!(rt; drain_last(&rt, &board, &mut heard) == 1);
    assert!(rt; board.unheard() == 1);
    assert!(rt; heard.as_slice() == [finished(1), finished(2), finished(3)].as_slice());
    Ok(())
}

#[test]
fn a_drain_is_an_entry(rt: HostRuntime) -> Result<(), Fail> {
    let mut board = Board::new(rt.alloc());
    board.reserve(2, 1)?;
    let mut heard = Vec::with_capacity(rt.alloc(), 1)?;
    send(&rt, &mut board, 2, &[finished(1)]);
    assert!(rt; drain(&rt, &mut board, 1, &mut heard) == 1);
    expect_entry(
        &rt,
        &board,
        1,
        Entry {
            lane: Lane::Main,
            upto: 1,
            kind: EntryKind::Drain { count: 1 },
        },
    );
    Ok(())
}
