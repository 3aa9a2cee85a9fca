//! Laws of words: how they join, and what a whole one leaves.

ghost use Rattle.std.specs.Prelude.{◌≡◌, List, ◌++◌, length};
ghost use Rattle.anim_names.specs.declared.lane.Lane.{Lane};
ghost use Rattle.run_laws.specs.Words.{IsComplete};
ghost use Rattle.run_rules.specs.Runs.{Lanes, after};
ghost use Rattle.run_rules.specs.Scripts.{IsWordOf, ScriptLists};

/// The state after two words is the state after the second from where the first has led.
pub fn words_join()
    ensures { (lanes : Lanes) (first second : List Lane) → after lanes (first ++ second) ≡ after (after lanes first) second }
{}

/// After a whole word nothing is left in either lane. The frames are those of the ticks in their order, and there is
/// one heard count more than drains.
pub fn whole_words_end()
    ensures { (script : ScriptLists) (word : List Lane) → IsWordOf (length script.main) (length script.compositor) word → IsComplete script word }
{}
