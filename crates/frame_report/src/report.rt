//! Reports as plain values: the word, the frames, the events and the heard counts of a run. Their text is made
//! elsewhere in this crate.

use anim_names::{AnimEvent, Lane};
use element_samples::Frame;
use std::marker::Model;

/// What a run of a script showed and told.
///
/// Contracts see four lists. Whether they are those of one run is up to the caller who makes the report: any four lists
/// are one. It never changes, and may be sent to and read by any thread.
pub struct Report {
    word: Vec<Lane>,
    frames: Vec<Frame>,
    events: Vec<AnimEvent>,
    heard: Vec<u32>,
}

impl Drop for Report {
    fn drop(self) {
        let Report {
            word: _word,
            frames: _frames,
            events: _events,
            heard: _heard,
        } = self;
    }
}

impl Model for Report {
    ghost use Rattle.run_rules.specs.Runs.{ReportLists};

    ghost Value = { ReportLists };

    ghost view = { λ r. record { word = r.word.items; frames = r.frames.items; events = r.events.items; heard = r.heard.items } };
}

impl Report {
    ghost use Rattle.std.specs.Prelude.{◌≡◌};

    /// The report of these four lists. It keeps them as they are, and takes no memory.
    pub fn new(
        word: Vec<Lane>,
        frames: Vec<Frame>,
        events: Vec<AnimEvent>,
        heard: Vec<u32>,
    ) -> Report
        ensures { result ≡ record { word = word.items; frames = frames.items; events = events.items; heard = heard.items } }
    {
        Report {
            word,
            frames,
            events,
            heard,
        }
    }

    /// The lanes' steps, in the order in which they were made.
    pub fn word(&self) -> &[Lane]
        ensures { result.now ≡ self.now.word }
    {
        self.word.as_slice()
    }

    /// The frame of each tick, in order.
    pub fn frames(&self) -> &[Frame]
        ensures { result.now ≡ self.now.frames }
    {
        self.frames.as_slice()
    }

    /// All events, in the order in which they were sent.
    pub fn events(&self) -> &[AnimEvent]
        ensures { result.now ≡ self.now.events }
    {
        self.events.as_slice()
    }

    /// How many events main had heard in all, after each drain and after the closing one.
    pub fn heard(&self) -> &[u32]
        ensures { result.now ≡ self.now.heard }
    {
        self.heard.as_slice()
    }
}
