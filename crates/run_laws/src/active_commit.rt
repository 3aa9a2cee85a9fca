//! Laws of the active commit and its models.

ghost use Rattle.std.specs.Prelude.{List};
ghost use Rattle.anim_names.specs.declared.lane.Lane.{Lane};
ghost use Rattle.run_laws.specs.ActiveCommit.{EndedHadStarted, GroupsAreWhole, MarkedAreActive, RunningIsActive};
ghost use Rattle.run_rules.specs.Runs.{Lanes, after, beginning};
ghost use Rattle.run_rules.specs.Scripts.{IsWellFormed, ScriptLists};

/// Each mark that a step makes is of a model of the commit that was active before the step.
pub fn marked_models_are_active()
    ensures { (lanes : Lanes) (letter : Lane) → MarkedAreActive lanes letter }
{}

/// A model that is started and not ended is in the active commit, so it is enough to look at the models there.
pub fn running_models_are_active()
    ensures { (script : ScriptLists) (word : List Lane) → RunningIsActive (after (beginning script) word) }
{}

/// A model of the active commit that is ended had started.
pub fn ended_models_had_started()
    ensures { (script : ScriptLists) → IsWellFormed script → (word : List Lane) → EndedHadStarted (after (beginning script) word) }
{}

/// Where one model of a group started, each of its models in the active commit did, all with one recorded start.
pub fn groups_are_whole()
    ensures { (script : ScriptLists) → IsWellFormed script → (word : List Lane) → GroupsAreWhole (after (beginning script) word) }
{}
