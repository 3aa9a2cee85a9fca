//! What the lock asks of its value: a journal with an owner for each entry, and a subject that never changes.

ghost use Rattle.std.specs.Prelude.{◌≡◌, ℕ, List, length};
ghost use Rattle.anim_names.specs.declared.entry.Entry.{Entry};

/// A value that keeps a journal of what the two lanes did with it.
///
/// `journal` is all entries so far, in the order in which they were made. `subject` says what the journal is about, as
/// a list of numbers; it stays the same as long as the value is under a lock. A subject is for contracts alone: no
/// running code reads it.
pub trait Journaled: Drop {
    ghost journal: { Self → List Entry };

    ghost subject: { Self → List ℕ };

    /// How many entries the journal has.
    fn entry_count(&self) -> u64
        ensures { result ≡ length (journal self.now) };
}
