//! Laws of the commit that is pulled while another is active.

ghost use Rattle.std.specs.Prelude.{List};
ghost use Rattle.anim_names.specs.declared.lane.Lane.{Lane};
ghost use Rattle.run_laws.specs.Follows.{KnownWereAdded, PendingFollows};
ghost use Rattle.run_rules.specs.Runs.{after, beginning};
ghost use Rattle.run_rules.specs.Scripts.{IsWellFormed, ScriptLists};

/// The commit that a pull gives goes on from the active one and from the marks, as long as it is pending.
pub fn pulled_commits_follow()
    ensures { (script : ScriptLists) → IsWellFormed script → (word : List Lane) → PendingFollows (after (beginning script) word) }
{}

/// The models that have a mark or are in the active or in the pending commit are at most those that the script adds.
pub fn known_models_were_added()
    ensures { (script : ScriptLists) → IsWellFormed script → (word : List Lane) → KnownWereAdded script (after (beginning script) word) }
{}
