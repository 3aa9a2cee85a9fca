//! The lock itself: a lane takes its turn, counts its entries and gets the value, and gives all back. It waits by
//! trying again, and promises no fairness.

ghost use Rattle.std.specs.Prelude.{◌≡◌, [], ◌∷◌, None, Some, IfOk};
ghost use Rattle.anim_names.specs.declared.lane.Lane.TheVariants.{Main, Compositor};
ghost use Rattle.commit_lock.specs.declared.view.Stage.TheVariants.{Outside, HasTurn, HasValue};
ghost use Rattle.commit_lock.specs.Journals.{entries_of, IsGrownBy, GrowsAlike};
ghost use Rattle.anim_names.specs.Lists.{BeginsWith};
ghost use Rattle.commit_lock.specs.Rules.{number_of};
ghost use Rattle.commit_lock.specs.Steps.{at_stage, having_seen, having_counted, Stands, HasSeenValue};
ghost use Rattle.commit_lock.specs.Seats.{fresh_seat, seat_after};

use crate::held::Held;
use crate::journaled::Journaled;
use crate::rule::{Count, EndTurn, Halves, LockRule, PutBack, TakeTurn, TakeValue};
use crate::seat::{LaneSeat, TableSeat};
use crate::view::View;
use anim_names::Lane;
use atomic_table::{Refused, Table};
use std::alloc::{AllocError, Global};
use std::marker::Model;
use std::snapshot::Snapshot;
use std::sync::Wait;
use std::thread;

// The word that names the lane whose turn it is.
const TURN: usize = 0;

// The word that has the journal's length.
const COUNT: usize = 1;

// The slot in which the value lies.
const VALUE: usize = 0;

// The number of no lane.
const FREE: u64 = 0;

/// One value that the two lanes use in turn, each in sections from [`acquire`](CommitLock::acquire) to
/// [`release`](CommitLock::release). Threads share it by reference.
///
/// A contract sees a lock as its name, which no other lock has.
#[derive(Drop)]
pub struct CommitLock<V: Journaled> {
    table: Table<Option<V>, View, Snapshot<V>, LockRule, Global>,
}

impl<V: Journaled> Model for CommitLock<V> {
    ghost use Rattle.std.specs.Prelude.{◌≡◌};
    ghost use Rattle.atomic_table.specs.Seated.{TableId, table_id_coded};

    ghost Value = { TableId };

    ghost coded = { table_id_coded };

    ghost view = { λ l. l.table.shared.table_id };

    ghost invariant = { λ l. (l.table.shared.table_id.words ≡ 2) × (l.table.shared.table_id.slots ≡ 1) };
}

impl<V: Journaled> CommitLock<V> {
    /// A lock round a value whose journal is empty, and the seats of main and of the compositor. Where there is no
    /// memory the value is dropped.
    pub fn new(
        alloc: Global,
        value: V,
    ) -> Result<(CommitLock<V>, LaneSeat<V>, LaneSeat<V>), AllocError>
        requires { V.journal value ≡ [] }
        ensures main { IfOk result (λ made. made.1 ≡ fresh_seat made.0 Main (V.subject value)) }
        ensures compositor { IfOk result (λ made. made.2 ≡ fresh_seat made.0 Compositor (V.subject value)) }
    {
        let about = Snapshot::of(&value);
        let mut slots = Vec::with_capacity(alloc, 1)?;
        slots.push_reserved(Some(value));
        match Table::new(alloc, &[FREE, 0], slots, &about) {
            Ok((table, mut main)) => {
                let compositor = table.shared.split_seat::<Halves>(&mut main);
                Ok((
                    CommitLock { table },
                    LaneSeat {
                        lane: Lane::Main,
                        table_seat: main,
                    },
                    LaneSeat {
                        lane: Lane::Compositor,
                        table_seat: compositor,
                    },
                ))
            }
            Err(Refused { slots: _ }) => Err(AllocError),
        }
    }

    /// Begins a section of the seat's lane. It tries until the other lane is in no section, which may be never.
    pub fn acquire<R: Wait>(&self, rt: &R, seat: LaneSeat<V>) -> Held<V>
        requires { seat.lock ≡ self.now }
        ensures seat { result.seat ≡ record seat { seen = V.journal result.value } }
        ensures subject { V.subject result.value ≡ seat.subject }
        ensures seen { BeginsWith (V.journal result.value) seat.seen }
        ensures mine { entries_of seat.lane (V.journal result.value) ≡ seat.mine }
    {
        let LaneSeat {
            lane,
            mut table_seat,
        } = seat;
        self.take_turn(rt, &mut table_seat, lane);
        let value = self.take_value(&mut table_seat);
        Held {
            lane,
            table_seat,
            value,
        }
    }

    /// Ends a section, in which the journal may only have grown by entries of its own lane. It waits for nobody.
    pub fn release(&self, held: Held<V>) -> LaneSeat<V>
        requires lock { held.seat.lock ≡ self.now }
        requires subject { V.subject held.value ≡ held.seat.subject }
        requires grown { IsGrownBy held.seat.lane held.seat.seen (V.journal held.value) }
        ensures seat { result ≡ seat_after held.seat (V.journal held.value) }
        ensures mine { GrowsAlike held.seat.seen (V.journal held.value) held.seat.mine result.mine }
    {
        let Held {
            lane,
            mut table_seat,
            value,
        } = held;
        self.count(&mut table_seat, value);
        self.put_back(&mut table_seat);
        self.end_turn(&mut table_seat);
        LaneSeat { lane, table_seat }
    }

    /// Gives the value back, once both lanes are done.
    pub fn close(self, main: LaneSeat<V>, compositor: LaneSeat<V>) -> V
        requires main { (main.lock ≡ self) × (main.lane ≡ Main) }
        requires compositor { (compositor.lock ≡ self) × (compositor.lane ≡ Compositor) }
        ensures main_subject { V.subject result ≡ main.subject }
        ensures compositor_subject { V.subject result ≡ compositor.subject }
        ensures main_seen { BeginsWith (V.journal result) main.seen }
        ensures compositor_seen { BeginsWith (V.journal result) compositor.seen }
        ensures main_mine { entries_of Main (V.journal result) ≡ main.mine }
        ensures compositor_mine { entries_of Compositor (V.journal result) ≡ compositor.mine }
    {
        let CommitLock { table } = self;
        let LaneSeat {
            lane: _,
            mut table_seat,
        } = main;
        let LaneSeat {
            lane: _,
            table_seat: other,
        } = compositor;
        table.shared.join_seat::<Halves>(&mut table_seat, other);
        let mut closed = table.close_with(table_seat);
        let value = closed.take(VALUE);
        closed.free();
        value.unwrap()
    }

    // Waits until the turn is free, and takes it.
    fn take_turn<R: Wait>(&self, rt: &R, table_seat: &mut TableSeat<V>, lane: Lane)
        requires lock { table_seat.old.table_id ≡ self.now }
        requires stands { Stands Outside [] table_seat.old.me × (table_seat.old.me.0.lane ≡ lane) }
        ensures lock { table_seat.new.table_id ≡ self.now }
        ensures turn { table_seat.new.me ≡ (at_stage HasTurn table_seat.old.me.0, []) }
    {
        let number = lane_number(lane);
        for _ in rt.forever() {
            let found = self
                .table
                .shared
                .compare_exchange::<TakeTurn>(table_seat, TURN, FREE, number);
            if found == FREE {
                return;
            }
            thread::yield_now();
        }
        unreachable!()
    }

    // Takes the value out of its slot.
    fn take_value(&self, table_seat: &mut TableSeat<V>) -> V
        requires lock { table_seat.old.table_id ≡ self.now }
        requires stands { Stands HasTurn [] table_seat.old.me }
        ensures lock { table_seat.new.table_id ≡ self.now }
        ensures value { table_seat.new.me ≡ (having_seen (V.journal result) table_seat.old.me.0, (0, None) ∷ []) }
        ensures subject { V.subject result ≡ table_seat.old.me.0.own.subject }
        ensures seen { BeginsWith (V.journal result) table_seat.old.me.0.own.seen }
        ensures mine { entries_of table_seat.old.me.0.lane (V.journal result) ≡ table_seat.old.me.0.own.mine }
    {
        self.table.shared.load::<TakeValue>(table_seat, TURN);
        self.table.shared.exchange(table_seat, VALUE, None).unwrap()
    }

    // Counts the journal, with the value in the slot that is out with the seat.
    fn count(&self, table_seat: &mut TableSeat<V>, value: V)
        requires lock { table_seat.old.table_id ≡ self.now }
        requires stands { Stands HasValue ((0, None) ∷ []) table_seat.old.me }
        requires grown { IsGrownBy table_seat.old.me.0.lane table_seat.old.me.0.own.seen (V.journal value) }
        ensures lock { table_seat.new.table_id ≡ self.now }
        ensures counted { table_seat.new.me ≡ (having_counted (V.journal value) table_seat.old.me.0, (0, Some value) ∷ []) }
    {
        let count = value.entry_count();
        drop(self.table.shared.exchange(table_seat, VALUE, Some(value)));
        self.table.shared.store::<Count>(table_seat, COUNT, count);
    }

    // Puts the slot back, with the value in it.
    fn put_back(&self, table_seat: &mut TableSeat<V>)
        requires lock { table_seat.old.table_id ≡ self.now }
        requires stands { Stands HasValue table_seat.old.me.1 table_seat.old.me }
        requires value { HasSeenValue V.journal V.subject table_seat.old.me }
        ensures lock { table_seat.new.table_id ≡ self.now }
        ensures home { table_seat.new.me ≡ (at_stage HasTurn table_seat.old.me.0, []) }
    {
        self.table.shared.load::<PutBack>(table_seat, TURN);
    }

    // Gives the turn back.
    fn end_turn(&self, table_seat: &mut TableSeat<V>)
        requires lock { table_seat.old.table_id ≡ self.now }
        requires stands { Stands HasTurn [] table_seat.old.me }
        ensures lock { table_seat.new.table_id ≡ self.now }
        ensures turn { table_seat.new.me ≡ (at_stage Outside table_seat.old.me.0, []) }
    {
        self.table.shared.store::<EndTurn>(table_seat, TURN, FREE);
    }
}

fn lane_number(lane: Lane) -> u64
    ensures { result ≡ number_of lane }
{
    match lane {
        Lane::Main => 1,
        Lane::Compositor => 2,
    }
}
