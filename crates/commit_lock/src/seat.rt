//! A lane's right to use the lock, with what the lane has seen of the journal. This knowledge is for contracts alone,
//! and no running code has it.

use crate::journaled::Journaled;
use crate::view::View;
use anim_names::Lane;
use atomic_table::Seat;
use std::marker::Model;

// A seat at a lock's table.
pub(crate) type TableSeat<V> = Seat<Option<V>, View>;

/// The right of one lane to make sections at a lock: a lock has two of them, which
/// [`CommitLock::new`](crate::CommitLock::new) gives. It takes no bytes for what it knows, and may go to any thread.
///
/// A contract sees which lock and lane it is of, and what the lane knows: what the journal is about (`subject`), the
/// journal at the lane's last section (`seen`), and the lane's own entries in it (`mine`).
#[derive(Drop)]
pub struct LaneSeat<V: Journaled> {
    pub(crate) lane: Lane,
    pub(crate) table_seat: TableSeat<V>,
}

impl<V: Journaled> Model for LaneSeat<V> {
    ghost use Rattle.std.specs.Prelude.{◌≡◌, []};
    ghost use Rattle.commit_lock.specs.declared.view.Stage.TheVariants.{Outside};
    ghost use Rattle.commit_lock.specs.Steps.{Stands};
    ghost use Rattle.commit_lock.specs.Seats.{SeatState, seat_state};

    ghost Value = { SeatState };

    ghost view = { λ s. seat_state s.table_seat.table_id s.table_seat.me.0 };

    ghost invariant = { λ s. Stands Outside [] s.table_seat.me × (s.table_seat.me.0.lane ≡ s.lane) };
}
