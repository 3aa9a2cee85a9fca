//! Sections of both lanes under the lock, each with an entry: in two threads, and in turn on one.

ghost use Rattle.std.specs.Prelude.{◌≡◌, ◌+◌, ◌^◌, ◌<◌, [], OnOk, IfOk};
ghost use Rattle.anim_names.specs.declared.lane.Lane.TheVariants.{Main, Compositor};
ghost use Rattle.commit_lock.specs.Journals.{entries_of};
ghost use Rattle.base_tests.specs.Notes.{note_of, notes};

use crate::diary::Notes;
use anim_names::{Entry, EntryKind, Lane};
use commit_lock::{CommitLock, LaneSeat};
use std::alloc::{AllocError, Global};
use std::sync::Wait;
use std::sync::atomic::{AtomicU64, Ordering};
use std::thread;
use std::thread::Threads;

// The entry of a lane's step.
fn note_of(lane: Lane, upto: u32) -> Entry
    ensures { result ≡ note_of lane upto }
{
    let kind = match lane {
        Lane::Main => EntryKind::Publish { number: upto },
        Lane::Compositor => EntryKind::Send { count: upto },
    };
    Entry { lane, upto, kind }
}

// Makes one section more than were made, with an entry.
#[tactic(auto, using(commit_lock::proofs::Grown::grown_by_one, commit_lock::proofs::Grown::grown_by_none))]
fn make_section<V: Notes, R: Wait>(
    rt: &R,
    lock: &CommitLock<V>,
    seat: LaneSeat<V>,
    lane: Lane,
    made: u32,
) -> (LaneSeat<V>, Result<(), AllocError>)
    requires lock { seat.lock ≡ lock.now }
    requires mine { (seat.lane ≡ lane) × (seat.mine ≡ notes lane made) }
    requires upto { made + 1 < 2 ^ 32 }
    ensures seat { (result.0.lock ≡ seat.lock) × (result.0.lane ≡ lane) × (result.0.subject ≡ seat.subject) }
    ensures mine { OnOk result.1 (result.0.mine ≡ notes lane (made + 1)) }
{
    let mut held = lock.acquire(rt, seat);
    let noted = held.value().note(note_of(lane, made + 1));
    match noted {
        Ok(()) => (lock.release(held), Ok(())),
        Err(full) => (lock.release(held), Err(full)),
    }
}

// Makes this many sections, and between two of them leaves the processor to the other lane. It stops where memory runs
// out.
fn make_sections<V: Notes, R: Wait>(
    rt: &R,
    lock: &CommitLock<V>,
    mut seat: LaneSeat<V>,
    lane: Lane,
    count: u32,
) -> (LaneSeat<V>, Result<(), AllocError>)
    requires lock { seat.lock ≡ lock.now }
    requires fresh { (seat.lane ≡ lane) × (seat.mine ≡ []) }
    ensures seat { (result.0.lock ≡ seat.lock) × (result.0.lane ≡ lane) × (result.0.subject ≡ seat.subject) }
    ensures mine { OnOk result.1 (result.0.mine ≡ notes lane count) }
{
    for made in 0..count {
        let (after, noted) = make_section(rt, lock, seat, lane, made);
        seat = after;
        if noted.is_err() {
            return (seat, noted);
        }
        thread::yield_now();
    }
    (seat, Ok(()))
}

// Waits for the other lane, so that their sections meet. It goes on alone after a million looks.
fn meet(arrived: &AtomicU64) {
    arrived.fetch_add(1, Ordering::SeqCst);
    for _ in 0..1_000_000 {
        if arrived.load(Ordering::SeqCst) > 1 {
            return;
        }
        thread::yield_now();
    }
}

// Makes the sections once both lanes have come.
fn meet_and_make_sections<V: Notes, R: Wait>(
    rt: &R,
    lock: &CommitLock<V>,
    arrived: &AtomicU64,
    seat: LaneSeat<V>,
    lane: Lane,
    count: u32,
) -> (LaneSeat<V>, Result<(), AllocError>)
    requires lock { seat.lock ≡ lock.now }
    requires fresh { (seat.lane ≡ lane) × (seat.mine ≡ []) }
    ensures seat { (result.0.lock ≡ seat.lock) × (result.0.lane ≡ lane) × (result.0.subject ≡ seat.subject) }
    ensures mine { OnOk result.1 (result.0.mine ≡ notes lane count) }
{
    meet(arrived);
    make_sections(rt, lock, seat, lane, count)
}

/// Both lanes make this many sections, each in a thread of its own.
pub fn note_both<V: Notes + Send, R: Threads + Wait + Sync>(
    rt: &R,
    alloc: Global,
    value: V,
    count: u32,
) -> Result<V, AllocError>
    requires { V.journal value ≡ [] }
    ensures main { IfOk result (λ v. entries_of Main (V.journal v) ≡ notes Main count) }
    ensures compositor { IfOk result (λ v. entries_of Compositor (V.journal v) ≡ notes Compositor count) }
    ensures subject { IfOk result (λ v. V.subject v ≡ V.subject value) }
{
    let (lock, main, compositor) = CommitLock::new(alloc, value)?;
    let arrived = AtomicU64::new(0);
    let (shared, both) = (&lock, &arrived);
    let ((main, first), (compositor, second)) = thread::join(
        rt,
        move || meet_and_make_sections(rt, shared, both, main, Lane::Main, count),
        move || meet_and_make_sections(rt, shared, both, compositor, Lane::Compositor, count),
    );
    let value = lock.close(main, compositor);
    first?;
    second?;
    Ok(value)
}

/// The same on one thread: a section of main, then one of the compositor, and so on.
pub fn note_in_turn<V: Notes, R: Wait>(
    rt: &R,
    alloc: Global,
    value: V,
    count: u32,
) -> Result<V, AllocError>
    requires { V.journal value ≡ [] }
    ensures main { IfOk result (λ v. entries_of Main (V.journal v) ≡ notes Main count) }
    ensures compositor { IfOk result (λ v. entries_of Compositor (V.journal v) ≡ notes Compositor count) }
{
    let (lock, mut main, mut compositor) = CommitLock::new(alloc, value)?;
    for made in 0..count {
        let (after, noted) = make_section(rt, &lock, main, Lane::Main, made);
        noted?;
        main = after;
        let (after, noted) = make_section(rt, &lock, compositor, Lane::Compositor, made);
        noted?;
        compositor = after;
    }
    Ok(lock.close(main, compositor))
}
