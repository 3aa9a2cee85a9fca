//! Laws of the marks of one model.

ghost use Rattle.std.specs.Prelude.{List};
ghost use Rattle.anim_names.specs.declared.lane.Lane.{Lane};
ghost use Rattle.run_laws.specs.Ends.{AbortedWasActive, EndsOnce};
ghost use Rattle.run_rules.specs.Runs.{Lanes, after, beginning};
ghost use Rattle.run_rules.specs.Scripts.{IsWellFormed, ScriptLists};

/// A model starts once at most and ends once at most. It finishes only after its start, and no mark stands after its
/// end.
pub fn models_end_once()
    ensures { (script : ScriptLists) → IsWellFormed script → (word : List Lane) → EndsOnce (after (beginning script) word).compositor.marks }
{}

/// A model that a step aborts was in the commit that was active before the step, and the mark names the one that was
/// pending.
pub fn aborted_models_were_active()
    ensures { (lanes : Lanes) (letter : Lane) → AbortedWasActive lanes letter }
{}
