//! A law of journals: their words are words of the lanes' steps.

ghost use Rattle.std.specs.Prelude.{ℕ, List};
ghost use Rattle.anim_names.specs.declared.entry.Entry.{Entry};
ghost use Rattle.frame_exchange.specs.Journals.{word_of_journal};
ghost use Rattle.frame_exchange.specs.Words.{AreWithinSteps};
ghost use Rattle.run_rules.specs.Scripts.{IsWordOf};

/// The word of a journal has a letter for each step of both lanes, wherever no entry is of a step that its lane has
/// not.
pub fn words_of_journals_are_whole()
    ensures { (entries : List Entry) (main compositor : ℕ) → AreWithinSteps main compositor entries → IsWordOf main compositor (word_of_journal entries main compositor) }
{}
