//! Laws of numbers: how large those of a run grow.

ghost use Rattle.std.specs.Prelude.{List};
ghost use Rattle.anim_names.specs.declared.lane.Lane.{Lane};
ghost use Rattle.run_laws.specs.Numbers.{EventsAreFew, LocalTimesAreSmall, StartsAreSmall};
ghost use Rattle.run_rules.specs.Runs.{after, beginning};
ghost use Rattle.run_rules.specs.Scripts.{IsWellFormed, ScriptLists};

/// A recorded start is within the last time that a script may name, on either side of 0.
pub fn recorded_starts_are_small()
    ensures { (script : ScriptLists) → IsWellFormed script → (word : List Lane) → StartsAreSmall (after (beginning script) word).compositor.marks }
{}

/// At every tick the local time of each started model is within what a timing is asked at.
pub fn local_times_are_small()
    ensures { (script : ScriptLists) → IsWellFormed script → (word : List Lane) → LocalTimesAreSmall script (after (beginning script) word) }
{}

/// There are at most two events for each model that the script adds.
pub fn events_are_few()
    ensures { (script : ScriptLists) → IsWellFormed script → (word : List Lane) → EventsAreFew script (after (beginning script) word) }
{}
