//! Laws of frames: which commits they show.

ghost use Rattle.std.specs.Prelude.{List};
ghost use Rattle.anim_names.specs.declared.lane.Lane.{Lane};
ghost use Rattle.run_laws.specs.Shown.{AllShowActivated, CommitNumbersNeverFall, SkippedIsSilent};
ghost use Rattle.run_rules.specs.Runs.{report_of};
ghost use Rattle.run_rules.specs.Scripts.{ScriptLists};

/// The commit that a frame shows is never older than the one before.
pub fn commit_numbers_never_fall()
    ensures { (script : ScriptLists) (word : List Lane) → CommitNumbersNeverFall (report_of script word) }
{}

/// A frame shows commit 0, or one that was committed, pulled and activated by steps before the tick, in that order.
pub fn frames_show_activated_commits()
    ensures { (script : ScriptLists) (word : List Lane) → AllShowActivated script word }
{}

/// A commit that no pull took is in no frame, and a model that was only in such commits has no event.
pub fn skipped_commits_are_silent()
    ensures { (script : ScriptLists) (word : List Lane) → SkippedIsSilent script word }
{}
