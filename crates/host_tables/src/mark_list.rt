//! The list of marks, and the events of those that are not yet sent. Nothing is ever taken out of it.

ghost use Rattle.std.specs.Prelude.{◌≡◌, ◌+◌, ◌<◌, ◌≤◌, [], ◌∷◌, length, OnOk, OnErr, IfOk};
ghost use Rattle.host_tables.specs.declared.TheConstants.{MOST_MARKS};
ghost use Rattle.host_tables.specs.MarkLists.{BeginsWithin, StartsAreWithin, events_behind, with_marks};
ghost use Rattle.run_rules.specs.Marks.{event_of_model};
ghost use Rattle.run_rules.specs.declared.mark.Mark.TheVariants.{OfModel};

use crate::MOST_MARKS;
use anim_names::{AnimEvent, ModelId};
use run_rules::{Mark, ModelMark};
use std::alloc::{AllocError, Global};
use std::marker::Model;

/// All marks, in order, and the events of those behind the last clearing.
///
/// It does not know which marks are right. A contract sees the marks and for how many in all there is room.
pub struct MarkList {
    marks: Vec<Mark>,
    news: Vec<AnimEvent>,
    cleared: usize,
    room: usize,
}

impl Drop for MarkList {
    fn drop(self) {
        let MarkList {
            marks: _marks,
            news: _news,
            cleared: _,
            room: _,
        } = self;
    }
}

impl Model for MarkList {
    ghost use Rattle.std.specs.Prelude.{◌≡◌, ◌≤◌, length, vec_capacity};
    ghost use Rattle.host_tables.specs.declared.TheConstants.{MOST_MARKS};
    ghost use Rattle.host_tables.specs.MarkLists.{Marked, StartsAreWithin, events_behind};

    ghost Value = { Marked };

    ghost view = { λ m. record { marks = m.marks.items; cleared = m.cleared; room = m.room } };

    ghost invariant = { λ m.
        (m.news.items ≡ events_behind m.cleared m.marks.items)
        × (m.cleared ≤ length m.marks.items)
        × (length m.marks.items ≤ m.room)
        × (m.room ≤ vec_capacity m.marks)
        × (m.room ≤ vec_capacity m.news)
        × (m.room ≤ MOST_MARKS)
        × StartsAreWithin m.marks.items };
}

impl MarkList {
    /// No marks, and no room for any.
    pub fn new(alloc: Global) -> MarkList
        ensures { result ≡ record { marks = []; cleared = 0; room = 0 } }
    {
        MarkList {
            marks: Vec::new(alloc),
            news: Vec::new(alloc),
            cleared: 0,
            room: 0,
        }
    }

    /// All marks.
    pub fn marks(&self) -> &[Mark]
        ensures marks { result.now ≡ self.now.marks }

        // Of every list.
        ensures most { length self.now.marks ≤ MOST_MARKS }
        ensures within { StartsAreWithin self.now.marks }
    {
        &self.marks
    }

    /// How many marks there are.
    pub fn len(&self) -> usize
        ensures { result ≡ length self.now.marks }
    {
        self.marks.len()
    }

    /// The index of the next mark.
    pub fn next_order(&self) -> u32
        requires { length self.now.marks < self.now.room }
        ensures { result ≡ length self.now.marks }
    {
        self.marks.len() as u32
    }

    /// The events of the marks since the news were cleared.
    pub fn news(&self) -> &[AnimEvent]
        ensures events { result.now ≡ events_behind self.now.cleared self.now.marks }
        ensures cleared { self.now.cleared ≤ length self.now.marks }
        ensures within { StartsAreWithin self.now.marks }
    {
        &self.news
    }

    /// Makes room for this many further marks. Where there is no memory, all stays as it was.
    pub fn reserve(&mut self, count: usize) -> Result<(), AllocError>
        ensures room { OnOk result (length self.new.marks + count ≤ self.new.room) }
        ensures never_less { self.old.room ≤ self.new.room }
        ensures same { self.new ≡ record self.old { room = self.new.room } }
        ensures err { OnErr result (self.new ≡ self.old) }
    {
        let room = sum(self.marks.len(), count)?;
        if room > MOST_MARKS {
            return Err(AllocError);
        }
        if room > self.room {
            self.grow(room)?;
        }
        Ok(())
    }

    // Makes room for this many marks in all.
    fn grow(&mut self, room: usize) -> Result<(), AllocError>
        requires more { self.old.room < room }
        requires most { room ≤ MOST_MARKS }
        ensures ok { OnOk result (self.new ≡ record self.old { room = room }) }
        ensures err { OnErr result (self.new ≡ self.old) }
    {
        self.marks.reserve(room - self.marks.len())?;
        self.news.reserve(room - self.news.len())?;
        self.room = room;
        Ok(())
    }

    /// Puts the mark of what became of a model behind the others.
    #[tactic(auto, using(crate::proofs::MarkListLemmas::pushes))]
    pub fn push(&mut self, model: ModelId, what: &ModelMark)
        requires room { length self.old.marks < self.old.room }
        requires within { BeginsWithin what.now }
        ensures { self.new ≡ with_marks self.old (OfModel model what.now ∷ []) }
    {
        self.marks
            .push_reserved(Mark::OfModel { model, what: *what });
        self.news.push_reserved(event_of(model, what));
    }

    /// The news are cleared: all marks were told.
    pub fn clear_news(&mut self)
        ensures { self.new ≡ record self.old { cleared = length self.old.marks } }
    {
        self.news.clear();
        self.cleared = self.marks.len();
    }
}

/// The sum of two counts of marks; there is no memory for a larger one.
pub fn sum(count: usize, more: usize) -> Result<usize, AllocError>
    ensures { IfOk result (λ sum. sum ≡ count + more) }
{
    match count.checked_add(more) {
        Some(sum) => Ok(sum),
        None => Err(AllocError),
    }
}

// The event that main hears of what became of a model.
fn event_of(model: ModelId, what: &ModelMark) -> AnimEvent
    ensures { result ≡ event_of_model model what.now }
{
    match *what {
        ModelMark::Started(begun) => AnimEvent::Started {
            model,
            group: begun.group,
            at: begun.at,
            start: begun.start,
        },
        ModelMark::Finished { at } => AnimEvent::Finished { model, at },
        ModelMark::Aborted { commit } => AnimEvent::Aborted { model, commit },
    }
}
