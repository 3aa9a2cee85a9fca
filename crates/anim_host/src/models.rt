//! What is asked of one keyframe model, by a commit and the marks.

ghost use Rattle.std.specs.Prelude.{◌≡◌, ◌≤◌, ◌-ℤ◌, unsigned_abs, Some, IsTrue, IfSome};
ghost use Rattle.anim_timeline.specs.declared.TheConstants.{LAST_TIME};
ghost use Rattle.anim_timeline.specs.Timelines.{IsTime};
ghost use Rattle.micro_time.specs.Timings.{is_done};
ghost use Rattle.run_rules.specs.Marks.{is_over, recorded_start};
ghost use Rattle.tree_commit.specs.Tables.{has_timeline};
ghost use Rattle.tree_commit.specs.Trees.{time_of};

use keyframe_model::ModelSpec;
use tree_commit::{Commit, Shown};

/// Whether the model is done at the tick, by the start that was recorded for it.
pub(crate) fn is_over(active: &Commit, model: &ModelSpec, tick: u64, shown: Shown) -> bool
    requires timeline_there { IsTrue (has_timeline active.now.tree model.now.timeline) }
    requires in_time { IsTime tick }
    requires within { unsigned_abs shown.start ≤ LAST_TIME }
    ensures { result ≡ is_over active.now.tree tick model.now (Some shown) }
{
    is_done_since(model, time_of(active, model, tick), shown.start)
}

// Whether the model is done at a time of its timeline that is so long after its start.
fn is_done_since(model: &ModelSpec, time: i64, start: i64) -> bool
    requires time { unsigned_abs time ≤ LAST_TIME }
    requires start { unsigned_abs start ≤ LAST_TIME }
    ensures { result ≡ is_done model.now.timing (time -ℤ start) }
{
    model.is_done(time - start)
}

/// The start to record for the model at the tick.
pub(crate) fn start_at(active: &Commit, model: &ModelSpec, tick: u64) -> i64
    requires timeline_there { IsTrue (has_timeline active.now.tree model.now.timeline) }
    requires in_time { IsTime tick }
    ensures start { result ≡ recorded_start model.now.start (time_of active.now.tree tick model.now) }
    ensures within { unsigned_abs result ≤ LAST_TIME }
{
    let _ = model.id();
    recorded_start(model.start(), time_of(active, model, tick))
}

// The start to record: the given one, else what the timeline shows.
fn recorded_start(given: Option<u64>, time: i64) -> i64
    requires given { IfSome given (λ start. start ≤ LAST_TIME) }
    requires time { unsigned_abs time ≤ LAST_TIME }
    ensures value { result ≡ recorded_start given time }
    ensures within { unsigned_abs result ≤ LAST_TIME }
{
    match given {
        None => time,
        Some(start) => start as i64,
    }
}

// What the model's timeline shows at the tick.
fn time_of(active: &Commit, model: &ModelSpec, tick: u64) -> i64
    requires timeline_there { IsTrue (has_timeline active.now.tree model.now.timeline) }
    requires in_time { IsTime tick }
    ensures value { result ≡ time_of active.now.tree tick model.now }
    ensures size { unsigned_abs result ≤ LAST_TIME }
{
    let timeline = active.timeline(model.timeline()).unwrap();
    timeline.time_of(tick)
}
