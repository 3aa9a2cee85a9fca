//! The entries of the journal: which lane made a call of the board, in which of its steps, and what the call did.

use crate::Lane;

/// What a call of the exchange board did.
#[derive(Clone, Copy, PartialEq, Eq)]
pub enum EntryKind {
    /// Main put the commit of this number into the mailbox.
    Publish { number: u32 },
    /// The compositor took the commit of this number from the mailbox, or found nothing to take.
    Pull { number: Option<u32> },
    /// The compositor sent this many events.
    Send { count: u32 },
    /// Main took this many events.
    Drain { count: u32 },
}

/// One entry of the journal of the exchange board.
#[derive(Clone, Copy, PartialEq, Eq)]
pub struct Entry {
    /// Whose call it was.
    pub lane: Lane,
    /// How many steps of the lane had been made, this one included.
    pub upto: u32,
    pub kind: EntryKind,
}
