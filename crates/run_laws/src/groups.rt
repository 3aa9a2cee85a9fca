//! Laws of groups: they start together, finish together, and block alone.

ghost use Rattle.std.specs.Prelude.{List};
ghost use Rattle.anim_names.specs.declared.lane.Lane.{Lane};
ghost use Rattle.run_laws.specs.Groups.{FinishesTogether, OneBlocker, StartsTogether, TargetsPresent};
ghost use Rattle.run_rules.specs.Runs.{Lanes, after, beginning};
ghost use Rattle.run_rules.specs.Scripts.{IsWellFormed, ScriptLists};

/// All starts of a group are of one step, and have one element, one tick and one recorded start.
pub fn groups_start_together()
    ensures { (script : ScriptLists) → IsWellFormed script → (word : List Lane) (letter : Lane) → StartsTogether (after (beginning script) word) letter }
{}

/// At a start the element is in the active commit, and in the pending one where that holds a model of the group.
pub fn targets_are_present()
    ensures { (lanes : Lanes) (letter : Lane) → TargetsPresent lanes letter }
{}

/// At most one group blocks a property of an element.
pub fn one_group_blocks()
    ensures { (script : ScriptLists) → IsWellFormed script → (word : List Lane) → OneBlocker (after (beginning script) word).compositor.marks }
{}

/// All finishes of a group are of one step.
pub fn groups_finish_together()
    ensures { (script : ScriptLists) → IsWellFormed script → (word : List Lane) (letter : Lane) → FinishesTogether (after (beginning script) word) letter }
{}
