//! Well-formed scripts: the steps of each lane and a word of them, which may be replaced by another. Reading and
//! printing are not done here.

ghost use Rattle.std.specs.Prelude.{◌≡◌, ◌↔◌, true, false, length, map, IsTrue, IfOk, OnErr, Ok};
ghost use Rattle.run_rules.specs.Scripts.{IsWellFormed, IsWordOf};
ghost use Rattle.run_rules.specs.Views.{step_of};
ghost use Rattle.frame_script.specs.Scripts.{script_parts};

use crate::word::is_word_of;
use anim_names::{Lane, Version};
use run_rules::{CompositorStep, MainStep};
use std::alloc::AllocError;
use std::marker::Model;

/// A well-formed script: the version of its language, the steps of main, those of the compositor, and a word of the two.
///
/// Contracts see the version and the three lists. It does not know which text it was read from.
pub struct Script {
    version: Version,
    main: Vec<MainStep>,
    compositor: Vec<CompositorStep>,
    word: Vec<Lane>,
}

impl Drop for Script {
    fn drop(self) {
        let Script {
            version: _,
            main: _main,
            compositor: _compositor,
            word: _word,
        } = self;
    }
}

impl Model for Script {
    ghost use Rattle.std.specs.Prelude.{map};
    ghost use Rattle.run_rules.specs.Scripts.{ScriptLists, IsWellFormed};
    ghost use Rattle.run_rules.specs.Views.{step_of};
    ghost use Rattle.frame_script.specs.Scripts.{script_parts};

    ghost Value = { ScriptLists };

    ghost view = { λ s. script_parts s.version (map step_of s.main.items) s.compositor.items s.word.items };

    ghost invariant = { λ s. IsWellFormed (script_parts s.version (map step_of s.main.items) s.compositor.items s.word.items) };
}

impl Script {
    /// The script of a version and of these lists, which are well formed.
    pub fn new(
        version: Version,
        main: Vec<MainStep>,
        compositor: Vec<CompositorStep>,
        word: Vec<Lane>,
    ) -> Script
        requires { IsWellFormed (script_parts version (map step_of main.items) compositor.items word.items) }
        ensures { result ≡ script_parts version (map step_of main.items) compositor.items word.items }
    {
        Script {
            version,
            main,
            compositor,
            word,
        }
    }

    /// The version of the language that the script is written in.
    pub fn version(&self) -> Version
        ensures { result ≡ self.now.version }
    {
        self.version
    }

    /// Main's steps, in order.
    pub fn main(&self) -> &[MainStep]
        ensures steps { map step_of result.now ≡ self.now.main }

        // So is every script.
        ensures kept { IsWellFormed self.now }
    {
        self.main.as_slice()
    }

    /// The compositor's steps, in order.
    pub fn compositor(&self) -> &[CompositorStep]
        ensures { result.now ≡ self.now.compositor }
    {
        self.compositor.as_slice()
    }

    /// The word: each letter stands for the next step of its lane.
    pub fn word(&self) -> &[Lane]
        ensures { result.now ≡ self.now.word }
    {
        self.word.as_slice()
    }

    /// Puts another word in place of the script's, where it has a letter for each step of each lane; says whether it
    /// did.
    pub fn replace_word(&mut self, word: &[Lane]) -> Result<bool, AllocError>
        ensures exact { IfOk result (λ replaced. IsTrue replaced ↔ IsWordOf (length self.old.main) (length self.old.compositor) word.now) }
        ensures replaced { result ≡ Ok true → self.new ≡ record self.old { word = word.now } }
        ensures other { result ≡ Ok false → self.new ≡ self.old }
        ensures err { OnErr result (self.new ≡ self.old) }
    {
        if !self.fits(word) {
            return Ok(false);
        }
        self.word = Vec::from_slice(*self.word.allocator(), word)?;
        Ok(true)
    }

    // Whether a word has a letter for each step of each lane.
    fn fits(&self, word: &[Lane]) -> bool
        ensures { IsTrue result ↔ IsWordOf (length self.now.main) (length self.now.compositor) word.now }
    {
        is_word_of(self.main.len(), self.compositor.len(), word)
    }
}
