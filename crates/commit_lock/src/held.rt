//! A section of the lock while a lane is in it: the value is lent for the section's work. Only the lock begins and
//! ends one.

ghost use Rattle.std.specs.Prelude.{◌≡◌};
ghost use Rattle.std.specs.Borrow.{Lends, sem};
ghost use Rattle.commit_lock.specs.contracts.held.Held.{the_row};

use crate::journaled::Journaled;
use crate::seat::TableSeat;
use anim_names::Lane;
use std::marker::Model;

/// A section under way: the value, out of its lock, with the seat of the lane that has it.
///
/// It can't be dropped, so that a section ends in [`CommitLock::release`](crate::CommitLock::release). A contract sees
/// the value, and the seat as having seen the journal at the section's start.
pub struct Held<V: Journaled> {
    pub(crate) lane: Lane,
    pub(crate) table_seat: TableSeat<V>,
    pub(crate) value: V,
}

impl<V: Journaled> Model for Held<V> {
    ghost use Rattle.std.specs.Prelude.{◌≡◌, [], ◌∷◌, None};
    ghost use Rattle.commit_lock.specs.declared.view.Stage.TheVariants.{HasValue};
    ghost use Rattle.commit_lock.specs.Steps.{Stands, HasOwn};
    ghost use Rattle.commit_lock.specs.Seats.{Section, seat_state};

    ghost Value = { Section V };

    ghost view = { λ h. record { seat = seat_state h.table_seat.table_id h.table_seat.me.0; value = h.value } };

    ghost invariant = { λ h. Stands HasValue ((0, None) ∷ []) h.table_seat.me × (h.table_seat.me.0.lane ≡ h.lane) × HasOwn h.table_seat.me.0 };
}

impl<V: Journaled> Held<V> {
    /// Lends the value for the section's work.
    pub fn value(&mut self) -> &mut V
        ensures* writes_back { sem 𝓛 (Lends (the_row V.row V.Journaled) V.row self.entry result (λ w. record self.old { value = w })) }
        ensures value { result.now ≡ self.old.value }
    {
        &mut self.value
    }
}
