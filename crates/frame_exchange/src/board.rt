//! The board that the lanes share: a mailbox of one commit, the queue of events and the journal. Neither trees nor
//! threads are known here.

ghost use Rattle.std.specs.Prelude.{◌≡◌, ◌+◌, ◌<◌, ◌≤◌, ◌^◌, [], ◌∷◌, ◌++◌, length, IfOk, OnOk, None, Some, is_none, option_map, slice_get, vec_len, vec_capacity};
ghost use Rattle.frame_exchange.specs.Journals.{IsExchange, drain_entry, finds_nothing, last_upto, mailbox_after_pull, publish_entry, published, pull_entry, reply_to_pull, send_entry, word_of_journal};
ghost use Rattle.event_queue.specs.Queues.{unheard, with_all_heard};

use crate::word::Word;
use anim_names::{AnimEvent, Entry, EntryKind, Lane};
use commit_lock::Journaled;
use event_queue::EventQueue;
use std::alloc::{AllocError, Global};
use std::marker::Model;
use std::sync::Arc;
use tree_commit::Commit;

/// Whether the compositor has a commit that waits for its activation.
#[derive(Clone, Copy, PartialEq, Eq)]
pub enum PendingSlot {
    /// None is pending: a pull may give one.
    Free,
    /// A commit is pending: a pull gives nothing.
    Taken,
}

/// Where main and the compositor meet: the mailbox, the events, and the journal.
///
/// There is one board for a run; when the lanes are threads, a lock is round it. It waits for nobody, and it does not
/// know trees. A contract sees the entries, the mailbox, the queue of events and the room for further entries.
pub struct Board {
    entries: Vec<Entry>,
    mailbox: Option<Arc<Commit>>,
    events: EventQueue,
    published: u32,
    main: u32,
    compositor: u32,
}

impl Drop for Board {
    fn drop(self) {
        let Board {
            entries: _entries,
            mailbox: _mailbox,
            events: _events,
            published: _,
            main: _,
            compositor: _,
        } = self;
    }
}

impl Model for Board {
    ghost use Rattle.std.specs.Prelude.{◌-◌, option_map, vec_len, vec_capacity};
    ghost use Rattle.frame_exchange.specs.Journals.{Exchange};
    ghost use Rattle.frame_exchange.specs.Keeping.{IsBoard};

    ghost Value = { Exchange };

    ghost view = { λ b. record {
      entries = b.entries.items;
      mailbox = option_map (λ commit. commit.value) b.mailbox;
      queue = b.events;
      room = vec_capacity b.entries - vec_len b.entries;
    } };

    ghost invariant = { λ b.
        IsBoard b.entries.items (option_map (λ commit. commit.value) b.mailbox) b.events b.published b.main b.compositor };
}

impl Board {
    /// A board with no entries, no events and an empty mailbox. It has no room yet.
    pub fn new(alloc: Global) -> Board
        ensures entries { result.entries ≡ [] }
        ensures mailbox { result.mailbox ≡ None }
        ensures events { result.queue.events ≡ [] }
        ensures heard { result.queue.heard ≡ 0 }
    {
        Board {
            entries: Vec::new(alloc),
            mailbox: None,
            events: EventQueue::new(alloc),
            published: 0,
            main: 0,
            compositor: 0,
        }
    }

    /// Makes room for this many further entries and events. Where there is no memory, only room may have grown.
    pub fn reserve(&mut self, entries: u32, events: u32) -> Result<(), AllocError>
        ensures room { OnOk result (entries ≤ self.new.room) }
        ensures event_room { OnOk result (events ≤ self.new.queue.room) }
        ensures never_less { self.old.room ≤ self.new.room }
        ensures events_never_less { self.old.queue.room ≤ self.new.queue.room }
        ensures same { self.new ≡ record self.old {
          room = self.new.room;
          queue = record self.old.queue { room = self.new.queue.room };
        } }
    {
        self.entries.reserve(entries as usize)?;
        self.events.reserve(events)
    }

    /// How many entries can be made before there must be more room.
    pub fn spare_entries(&self) -> usize
        ensures { result ≡ self.now.room }
    {
        self.entries.capacity() - self.entries.len()
    }

    /// How many events can be sent before there must be more room.
    pub fn spare_events(&self) -> usize
        ensures { result ≡ self.now.queue.room }
    {
        self.events.spare()
    }

    /// How many events were sent that no drain has given.
    pub fn unheard(&self) -> usize
        ensures { result ≡ length (unheard self.now.queue) }
    {
        self.events.unheard()
    }

    /// All events that were ever sent, in order: fewer than 2^32.
    pub fn events(&self) -> &[AnimEvent]
        ensures value { result.now ≡ self.now.queue.events }
        ensures few { length self.now.queue.events < 2 ^ 32 }
    {
        let _ = &self.mailbox;
        self.events.events()
    }

    /// How many commits were published, which is the number of the newest.
    pub fn published(&self) -> u32
        ensures { result ≡ published self.now.entries }
    {
        self.published
    }

    /// Up to which of its steps a lane has made entries, 0 at first.
    pub fn last_upto(&self, lane: Lane) -> u32
        ensures { result ≡ last_upto lane self.now.entries }
    {
        match lane {
            Lane::Main => self.main,
            Lane::Compositor => self.compositor,
        }
    }

    /// Puts the next commit into the mailbox, in place of one that was not pulled. Main calls it in the step that
    /// `upto` counts to.
    pub fn publish(&mut self, upto: u32, commit: Arc<Commit>)
        requires room { 0 < self.old.room }
        requires later { last_upto Lane.Main self.old.entries < upto }
        requires next { commit.value.number ≡ published self.old.entries + 1 }
        ensures entries { self.new.entries ≡ self.old.entries ++ publish_entry self.old.entries upto ∷ [] }
        ensures mailbox { self.new.mailbox ≡ Some commit.value }
        ensures queue { self.new.queue ≡ self.old.queue }
        ensures room { self.new.room + 1 ≡ self.old.room }
    {
        self.published += 1;
        self.main = upto;
        self.entries.push_reserved(Entry {
            lane: Lane::Main,
            upto,
            kind: EntryKind::Publish {
                number: self.published,
            },
        });
        self.mailbox = Some(commit);
    }

    /// Takes the newest commit out of the mailbox. There is none exactly where a commit is pending or the newest was
    /// pulled already. The compositor calls it in the step that `upto` counts to.
    pub fn pull(&mut self, upto: u32, pending: PendingSlot) -> Option<Arc<Commit>>
        requires room { 0 < self.old.room }
        requires later { last_upto Lane.Compositor self.old.entries < upto }
        ensures reply { option_map (λ commit. commit.value) result ≡ reply_to_pull self.old pending }
        ensures none { is_none result ≡ finds_nothing self.old.entries pending }
        ensures entries { self.new.entries ≡ self.old.entries ++ pull_entry self.old.entries upto pending ∷ [] }
        ensures mailbox { self.new.mailbox ≡ mailbox_after_pull self.old pending }
        ensures queue { self.new.queue ≡ self.old.queue }
        ensures room { self.new.room + 1 ≡ self.old.room }
    {
        let commit = match pending {
            PendingSlot::Taken => None,
            PendingSlot::Free => self.mailbox.take(),
        };
        let number = if commit.is_some() {
            Some(self.published)
        } else {
            None
        };
        self.compositor = upto;
        self.entries.push_reserved(Entry {
            lane: Lane::Compositor,
            upto,
            kind: EntryKind::Pull { number },
        });
        commit
    }

    /// Sends events, behind all that were sent. The compositor calls it in the step that `upto` counts to.
    pub fn send(&mut self, upto: u32, events: &[AnimEvent])
        requires room { 0 < self.old.room }
        requires later { last_upto Lane.Compositor self.old.entries < upto }
        requires some { 0 < length events.now }
        requires event_room { length events.now ≤ self.old.queue.room }
        requires few { length self.old.queue.events + length events.now < 2 ^ 32 }
        ensures entries { self.new.entries ≡ self.old.entries ++ send_entry upto events.now ∷ [] }
        ensures mailbox { self.new.mailbox ≡ self.old.mailbox }
        ensures events { self.new.queue.events ≡ self.old.queue.events ++ events.now }
        ensures heard { self.new.queue.heard ≡ self.old.queue.heard }
        ensures event_room { self.new.queue.room + length events.now ≡ self.old.queue.room }
        ensures room { self.new.room + 1 ≡ self.old.room }
    {
        self.compositor = upto;
        self.entries.push_reserved(Entry {
            lane: Lane::Compositor,
            upto,
            kind: EntryKind::Send {
                count: events.len() as u32,
            },
        });
        self.events.send_all(events);
    }

    /// Appends all events that no drain has given to `into`, in order, and says how many they were. Main calls it in
    /// the step that `upto` counts to.
    pub fn drain(&mut self, upto: u32, into: &mut Vec<AnimEvent>) -> usize
        requires room { 0 < self.old.room }
        requires later { last_upto Lane.Main self.old.entries < upto }
        requires into_room { vec_len into.old + length (unheard self.old.queue) ≤ vec_capacity into.old }
        ensures given { into.new.items ≡ into.old.items ++ unheard self.old.queue }
        ensures count { result ≡ length (unheard self.old.queue) }
        ensures entries { self.new.entries ≡ self.old.entries ++ drain_entry self.old upto ∷ [] }
        ensures mailbox { self.new.mailbox ≡ self.old.mailbox }
        ensures queue { self.new.queue ≡ with_all_heard self.old.queue }
        ensures room { self.new.room + 1 ≡ self.old.room }
        ensures capacity { vec_capacity into.new ≡ vec_capacity into.old }
    {
        let count = self.events.take_new(into);
        self.main = upto;
        self.entries.push_reserved(Entry {
            lane: Lane::Main,
            upto,
            kind: EntryKind::Drain {
                count: count as u32,
            },
        });
        count
    }

    /// The closing drain: what a drain would give. It makes no entry, and the board stays as it is.
    pub fn drain_last(&self, into: &mut Vec<AnimEvent>) -> usize
        requires { vec_len into.old + length (unheard self.now.queue) ≤ vec_capacity into.old }
        ensures given { into.new.items ≡ into.old.items ++ unheard self.now.queue }
        ensures count { result ≡ length (unheard self.now.queue) }
        ensures capacity { vec_capacity into.new ≡ vec_capacity into.old }
    {
        self.events.copy_new(into)
    }

    /// How many entries were made.
    pub fn entry_count(&self) -> usize
        ensures value { result ≡ length self.now.entries }

        // Of every board: its pulls go with its publishes.
        ensures exchange { IsExchange self.now }
    {
        let _ = &self.mailbox;
        self.entries.len()
    }

    /// The entry at an index, from 0.
    pub fn entry_at(&self, i: usize) -> Entry
        requires { i < length self.now.entries }
        ensures { slice_get self.now.entries i ≡ Some result }
    {
        self.entries[i]
    }

    /// The word of the journal, for lanes with these numbers of steps.
    pub fn word(&self, alloc: Global, main: u32, compositor: u32) -> Result<Vec<Lane>, AllocError>
        ensures { IfOk result (λ word. word.items ≡ word_of_journal self.now.entries main compositor) }
    {
        let mut word = Word::new(alloc);
        self.spell(&mut word, main, compositor)?;
        Ok(word.into_letters())
    }

    // Puts the letters of the journal's word into a word that has none.
    #[tactic(auto, unfolding(crate::specs::Journals::word_of_journal))]
    fn spell(&self, word: &mut Word, main: u32, compositor: u32) -> Result<(), AllocError>
        requires { word.old ≡ [] }
        ensures { OnOk result (word.new ≡ word_of_journal self.now.entries main compositor) }
    {
        for entry in &self.entries {
            word.fill(entry.lane, entry.upto)?;
        }
        word.fill(Lane::Main, main)?;
        word.fill(Lane::Compositor, compositor)
    }
}

impl Journaled for Board {
    ghost use Rattle.std.specs.Prelude.{[]};

    ghost journal = { λ b. b.entries };

    ghost subject = { λ _. [] };

    fn entry_count(&self) -> u64 {
        self.entries.len() as u64
    }
}
