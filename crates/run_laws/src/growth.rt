//! Laws of growth: marks and commits only grow, so what a lane has learnt stays true.

ghost use Rattle.std.specs.Prelude.{List};
ghost use Rattle.anim_names.specs.declared.lane.Lane.{Lane};
ghost use Rattle.run_laws.specs.Growth.{CommitsAreCounted, CommitsOnlyGrow, LearntStays, MarksOnlyGrow};
ghost use Rattle.run_rules.specs.Runs.{Lanes, after, beginning};
ghost use Rattle.run_rules.specs.Scripts.{IsWellFormed, ScriptLists};

/// The marks after a word are those before it and new ones behind them.
pub fn marks_only_grow()
    ensures { (lanes : Lanes) (word : List Lane) → MarksOnlyGrow lanes word }
{}

/// The commits after a word are those before it and new ones behind them.
pub fn commits_only_grow()
    ensures { (lanes : Lanes) (word : List Lane) → CommitsOnlyGrow lanes word }
{}

/// The k-th commit has the number k, and there are as many commits as commit steps so far.
pub fn commits_are_counted()
    ensures { (script : ScriptLists) (word : List Lane) → CommitsAreCounted script word }
{}

/// What main has heard and which commits the compositor has is true of every longer word too.
pub fn what_was_learnt_stays()
    ensures { (script : ScriptLists) → IsWellFormed script → (word longer : List Lane) → LearntStays (after (beginning script) word) (after (after (beginning script) word) longer) }
{}
