//! A value with a journal, for the lock.

ghost use Rattle.std.specs.Prelude.{◌≡◌, [], ◌∷◌, ◌++◌, OnOk, OnErr};
ghost use Rattle.anim_names.specs.declared.entry.Entry.{Entry};

use anim_names::Entry;
use commit_lock::Journaled;
use std::alloc::{AllocError, Global};

/// A journal to which entries can be added.
pub trait Notes: Journaled {
    fn note(&mut self, entry: Entry) -> Result<(), AllocError>
        ensures ok { OnOk result (Self.journal self.new ≡ Self.journal self.old ++ entry ∷ []) }
        ensures err { OnErr result (Self.journal self.new ≡ Self.journal self.old) }
        ensures subject { Self.subject self.new ≡ Self.subject self.old };
}

/// A list of entries, about a number.
#[derive(Drop)]
pub struct Diary {
    about: u64,
    entries: Vec<Entry>,
}

impl Diary {
    pub fn new(alloc: Global, about: u64) -> Diary
        ensures { (result.entries.items ≡ []) × (result.about ≡ about) }
    {
        Diary {
            about,
            entries: Vec::new(alloc),
        }
    }

    pub fn entries(&self) -> &[Entry]
        ensures { result.now ≡ self.now.entries.items }
    {
        self.entries.as_slice()
    }
}

impl Journaled for Diary {
    ghost journal = { λ d. d.entries.items };

    ghost subject = { λ d. d.about ∷ [] };

    fn entry_count(&self) -> u64 {
        self.entries.len() as u64
    }
}

impl Notes for Diary {
    fn note(&mut self, entry: Entry) -> Result<(), AllocError> {
        self.entries.push(entry)?;
        Ok(())
    }
}
