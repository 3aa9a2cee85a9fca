//! What a seat at the lock's table knows. These types are for the proofs alone: no value of them is made.

use anim_names::{Entry, Lane};
use std::collections::LinkedList;

/// Where a lane stands in its section.
pub enum Stage {
    /// The seat does not speak for the lane.
    Absent,
    /// The lane has not the turn.
    Outside,
    /// The lane has the turn, and the value lies in its slot.
    HasTurn,
    /// The lane has the turn, and the value is out with its seat.
    HasValue,
}

/// What a seat knows of a lane for which it speaks.
pub struct Part {
    pub stage: Stage,
    /// What the journal is about.
    pub subject: LinkedList<u64>,
    /// The journal when the lane last saw it.
    pub seen: LinkedList<Entry>,
    /// The lane's own entries.
    pub mine: LinkedList<Entry>,
}

/// What a seat knows. A lane's seat speaks for its own lane alone; the first seat of a lock and the last, into which
/// the other was joined, speak for both.
pub struct View {
    pub lane: Lane,
    pub own: Part,
    pub other: Part,
}
