//! Making a word of a journal: each entry says how many steps its lane had made, and letters are added up to there.

ghost use Rattle.std.specs.Prelude.{◌≡◌, [], OnOk};
ghost use Rattle.anim_names.specs.Lanes.{letters_of};
ghost use Rattle.frame_exchange.specs.Journals.{filled};

use anim_names::Lane;
use std::alloc::{AllocError, Global};
use std::marker::Model;

/// A word in the making: its letters, and how many of them each lane has.
///
/// A contract sees the letters.
#[derive(Drop)]
pub(crate) struct Word {
    letters: Vec<Lane>,
    main: u32,
    compositor: u32,
}

impl Model for Word {
    ghost use Rattle.std.specs.Prelude.{◌≡◌, List};
    ghost use Rattle.anim_names.specs.declared.lane.Lane.{Lane};
    ghost use Rattle.anim_names.specs.declared.lane.Lane.TheVariants.{Main, Compositor};
    ghost use Rattle.anim_names.specs.Lanes.{letters_of};

    ghost Value = { List Lane };

    ghost view = { λ w. w.letters.items };

    ghost invariant = { λ w.
        (w.main ≡ letters_of Main w.letters.items) × (w.compositor ≡ letters_of Compositor w.letters.items) };
}

impl Word {
    // The word with no letters.
    pub(crate) fn new(alloc: Global) -> Word
        ensures { result ≡ [] }
    {
        Word {
            letters: Vec::new(alloc),
            main: 0,
            compositor: 0,
        }
    }

    // Puts letters of the lane behind the word, until the lane has this many.
    pub(crate) fn fill(&mut self, lane: Lane, upto: u32) -> Result<(), AllocError>
        ensures { OnOk result (self.new ≡ filled lane upto self.old) }
    {
        let made = self.made(lane);
        let more = upto.saturating_sub(made) as usize;
        self.letters.resize(self.letters.len() + more, lane)?;
        match lane {
            Lane::Main => self.main = made.max(upto),
            Lane::Compositor => self.compositor = made.max(upto),
        }
        Ok(())
    }

    // How many letters of the lane there are.
    fn made(&self, lane: Lane) -> u32
        ensures { result ≡ letters_of lane self.now }
    {
        match lane {
            Lane::Main => self.main,
            Lane::Compositor => self.compositor,
        }
    }

    pub(crate) fn into_letters(self) -> Vec<Lane>
        ensures { result.items ≡ self }
    {
        let Word {
            letters,
            main: _,
            compositor: _,
        } = self;
        letters
    }
}
