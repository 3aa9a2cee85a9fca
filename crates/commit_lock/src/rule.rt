//! The rule of the lock's table, and names for its steps. These types are for the proofs alone.

use crate::journaled::Journaled;
use crate::view::View;
use atomic_table::{Join, Play, Split, TableRule};
use std::snapshot::Snapshot;

/// What is true of the table between any two steps. Its key is the value with which the lock was made, for the subject.
pub struct LockRule;

impl<V: Journaled> TableRule<Option<V>, View, Snapshot<V>> for LockRule {
    ghost use Rattle.commit_lock.specs.Views.{first_view};
    ghost use Rattle.commit_lock.specs.Rules.{IsKept};

    ghost holds = { λ key. IsKept V.journal V.subject (V.subject key.value) };

    ghost first = { λ key. first_view (V.subject key.value) };
}

/// Between one seat that speaks for both lanes, and a seat for each.
pub struct Halves;

impl Split<View> for Halves {
    ghost use Rattle.commit_lock.specs.Views.{own_half, other_half};

    ghost left = { own_half };

    ghost right = { other_half };
}

impl Join<View> for Halves {
    ghost use Rattle.commit_lock.specs.Views.{whole, spent};

    ghost both = { whole };

    ghost spent = { spent };
}

/// The turn is taken where it is free.
pub struct TakeTurn;

impl<V> Play<Option<V>, View> for TakeTurn {
    ghost use Rattle.commit_lock.specs.Steps.{TakesTurn};

    ghost then = { TakesTurn };
}

/// The value is taken out of its slot.
pub struct TakeValue;

impl<V: Journaled> Play<Option<V>, View> for TakeValue {
    ghost use Rattle.commit_lock.specs.Steps.{TakesValue};

    ghost then = { TakesValue V.journal V.subject };
}

/// The journal is counted: what the section added to it joins the history.
pub struct Count;

impl<V: Journaled> Play<Option<V>, View> for Count {
    ghost use Rattle.commit_lock.specs.Steps.{Counts};

    ghost then = { Counts V.journal };
}

/// The value is put back.
pub struct PutBack;

impl<V> Play<Option<V>, View> for PutBack {
    ghost use Rattle.commit_lock.specs.Steps.{PutsBack};

    ghost then = { PutsBack };
}

/// The turn is given back.
pub struct EndTurn;

impl<V> Play<Option<V>, View> for EndTurn {
    ghost use Rattle.commit_lock.specs.Steps.{EndsTurn};

    ghost then = { EndsTurn };
}
