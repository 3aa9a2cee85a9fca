//! Laws of main's tree and of its commits, whatever main has heard.

ghost use Rattle.std.specs.Prelude.{List, take};
ghost use Rattle.anim_names.specs.declared.lane.Lane.{Lane};
ghost use Rattle.anim_names.specs.declared.lane.Lane.TheVariants.{Main};
ghost use Rattle.anim_names.specs.Lanes.{letters_of};
ghost use Rattle.run_laws.specs.MainTree.{BookGoesWithTree, CommitsAgreeInGroups, IdsNameOneModel, MainIsWithinLimits, NoGroupGrows, NoneReturns, TimelinesStay, line_of};
ghost use Rattle.run_rules.specs.Runs.{after, beginning};
ghost use Rattle.run_rules.specs.Scripts.{IsWellFormed, ScriptLists, book_of};

/// The book of the steps so far goes together with the tree.
pub fn book_goes_with_tree()
    ensures { (script : ScriptLists) → IsWellFormed script → (word : List Lane) → BookGoesWithTree (book_of (take (letters_of Main word) script.main)) (after (beginning script) word).main.tree }
{}

/// A model id has one specification, in all commits and in the tree.
pub fn ids_name_one_model()
    ensures { (script : ScriptLists) → IsWellFormed script → (word : List Lane) → IdsNameOneModel (line_of (after (beginning script) word).main) }
{}

/// A model that left a commit is in no later one.
pub fn no_model_returns()
    ensures { (script : ScriptLists) → IsWellFormed script → (word : List Lane) → NoneReturns (line_of (after (beginning script) word).main) }
{}

/// After the first commit that holds a model of a group, the group gets no further one.
pub fn no_group_grows()
    ensures { (script : ScriptLists) → IsWellFormed script → (word : List Lane) → NoGroupGrows (line_of (after (beginning script) word).main) }
{}

/// The models of a group agree in element, timeline and given start, and differ in property.
pub fn groups_agree()
    ensures { (script : ScriptLists) → IsWellFormed script → (word : List Lane) → CommitsAgreeInGroups (line_of (after (beginning script) word).main) }
{}

/// Timelines stay, each with one zero, and the timeline of each model is there.
pub fn timelines_stay()
    ensures { (script : ScriptLists) → IsWellFormed script → (word : List Lane) → TimelinesStay (line_of (after (beginning script) word).main) }
{}

/// The commits are no more than a script may make, and they and the tree are no larger than it may make them.
pub fn main_is_within_limits()
    ensures { (script : ScriptLists) → IsWellFormed script → (word : List Lane) → MainIsWithinLimits (after (beginning script) word).main }
{}
