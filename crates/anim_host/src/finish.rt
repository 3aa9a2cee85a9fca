//! What finishes at a tick.

ghost use Rattle.std.specs.Prelude.{◌≡◌, ℕ, ◌<◌, ◌≤◌, ◌++◌, ◌∷◌, [], true, if◌then◌else◌, filter, length, slice_get, unsigned_abs, vec_capacity, Some, IsTrue};
ghost use Rattle.std.specs.List.{AllByRecursion, list_all, list_any};
ghost use Rattle.anim_host.specs.Ticks.{finishes, group_finishes};
ghost use Rattle.host_tables.specs.CommitGroups.{at_indices, commit_groups};
ghost use Rattle.anim_timeline.specs.declared.TheConstants.{LAST_TIME};
ghost use Rattle.anim_timeline.specs.Timelines.{IsTime};
ghost use Rattle.anim_names.specs.Lists.{IsAmong};
ghost use Rattle.run_rules.specs.Marks.{finishing_models, is_over, is_unfinished, start_of};
ghost use Rattle.tree_commit.specs.Tables.{HasAllTimelines, has_timeline};
ghost use Rattle.tree_commit.specs.Trees.{groups_of, has_model, members_of};

use crate::models::is_over;
use crate::standing::Standing;
use anim_names::GroupId;
use host_tables::CommitGroups;
use keyframe_effect::RunState;
use keyframe_model::ModelSpec;
use tree_commit::{Commit, Shown};

/// The indices of the models that finish at the tick, which is the last one, in the order of the commit: those that run
/// and of whose group each running model is done. The list has room for all models, and no further memory is taken.
/// Where no group finishes, this looks at each group, and at the models of those of which some run.
pub(crate) fn finishing(
    standing: &mut Standing,
    active: &Commit,
    groups: &CommitGroups,
    tick: u64,
    indices: Vec<usize>,
) -> Vec<usize>
    requires active { active.now ≡ standing.old.active }
    requires groups { groups.now ≡ commit_groups active.now.tree.models }
    requires last { standing.old.last_tick ≡ tick }
    requires in_time { IsTime tick }
    requires none { indices.items ≡ [] }
    requires room { length active.now.tree.models ≤ vec_capacity indices }
    ensures models { at_indices active.now.tree.models result.items
        ≡ finishing_models active.now.tree standing.old.list.marks tick }
    ensures within { AllByRecursion (λ index. index < length active.now.tree.models) result.items }
    ensures same { standing.new ≡ standing.old }
{
    if some_finish(standing, active, groups, tick) {
        gather(standing, active, groups, tick, indices)
    } else {
        indices
    }
}

// Whether some group finishes at the tick.
fn some_finish(standing: &mut Standing, active: &Commit, groups: &CommitGroups, tick: u64) -> bool
    requires active { active.now ≡ standing.old.active }
    requires groups { groups.now ≡ commit_groups active.now.tree.models }
    requires last { standing.old.last_tick ≡ tick }
    requires in_time { IsTime tick }
    ensures finish { result ≡ list_any (group_finishes active.now.tree standing.old.list.marks tick) (groups_of active.now.tree) }
    ensures same { standing.new ≡ standing.old }
{
    let _ = active.model_count();
    let mut found = false;
    for index in 0..groups.group_count() {
        found |= group_finishes(standing, active, groups, groups.group_at(index), tick);
    }
    found
}

// Whether models of the group run and each of them is done.
fn group_finishes(
    standing: &mut Standing,
    active: &Commit,
    groups: &CommitGroups,
    group: GroupId,
    tick: u64,
) -> bool
    requires active { active.now ≡ standing.old.active }
    requires groups { groups.now ≡ commit_groups active.now.tree.models }
    requires timelines_there { HasAllTimelines active.now.tree }
    requires last { standing.old.last_tick ≡ tick }
    requires in_time { IsTime tick }
    ensures finishes { result ≡ group_finishes active.now.tree standing.old.list.marks tick group }
    ensures same { standing.new ≡ standing.old }
{
    some_run(standing, group) && are_over(standing, active, groups.indices(group), tick)
}

// Whether a model of the group runs.
fn some_run(standing: &Standing, group: GroupId) -> bool
    ensures { result ≡ list_any (λ model. is_unfinished standing.now.list.marks model.id) (members_of standing.now.active.tree group) }
{
    match standing.group_row(group) {
        None => false,
        Some(row) => row.unfinished > 0,
    }
}

// The indices of the models that finish at the tick, in the order of the commit.
fn gather(
    standing: &mut Standing,
    active: &Commit,
    groups: &CommitGroups,
    tick: u64,
    mut indices: Vec<usize>,
) -> Vec<usize>
    requires active { active.now ≡ standing.old.active }
    requires groups { groups.now ≡ commit_groups active.now.tree.models }
    requires last { standing.old.last_tick ≡ tick }
    requires in_time { IsTime tick }
    requires none { indices.items ≡ [] }
    requires room { length active.now.tree.models ≤ vec_capacity indices }
    ensures models { at_indices active.now.tree.models result.items
        ≡ finishing_models active.now.tree standing.old.list.marks tick }
    ensures within { AllByRecursion (λ index. index < length active.now.tree.models) result.items }
    ensures same { standing.new ≡ standing.old }
{
    for index in 0..active.model_count() {
        let is_finished = finishes(standing, active, groups, active.model_at(index), tick);
        push_if(&mut indices, is_finished, index);
    }
    indices
}

fn push_if(indices: &mut Vec<usize>, test: bool, index: usize)
    requires { length indices.old.items < vec_capacity indices.old }
    ensures items { indices.new.items ≡ indices.old.items ++ (if test then index ∷ [] else []) }
    ensures room { vec_capacity indices.new ≡ vec_capacity indices.old }
{
    if test {
        indices.push_reserved(index);
    }
}

// Whether the model finishes at the tick.
fn finishes(
    standing: &mut Standing,
    active: &Commit,
    groups: &CommitGroups,
    model: &ModelSpec,
    tick: u64,
) -> bool
    requires active { active.now ≡ standing.old.active }
    requires groups { groups.now ≡ commit_groups active.now.tree.models }
    requires there { has_model active.now.tree model.now.id ≡ true }
    requires timelines_there { HasAllTimelines active.now.tree }
    requires last { standing.old.last_tick ≡ tick }
    requires in_time { IsTime tick }
    ensures finishes { result ≡ finishes active.now.tree standing.old.list.marks tick model.now }
    ensures same { standing.new ≡ standing.old }
{
    standing.state(model.id()).is_unfinished()
        && are_over(standing, active, groups.indices(model.group()), tick)
}

// Whether each running model at these indices is done.
fn are_over(standing: &mut Standing, active: &Commit, indices: &[usize], tick: u64) -> bool
    requires active { active.now ≡ standing.old.active }
    requires indices { (j index : ℕ) → slice_get indices.now j ≡ Some index → index < length active.now.tree.models }
    requires timelines_there { HasAllTimelines active.now.tree }
    requires last { standing.old.last_tick ≡ tick }
    requires in_time { IsTime tick }
    ensures over { result
        ≡ list_all (λ model. is_over active.now.tree tick model (start_of standing.old.list.marks model.id))
        (filter (λ model. is_unfinished standing.old.list.marks model.id) (at_indices active.now.tree.models indices.now)) }
    ensures same { standing.new ≡ standing.old }
{
    let mut over = true;
    for position in 0..indices.len() {
        over &= is_over_or_still(standing, active, active.model_at(indices[position]), tick);
    }
    over
}

// Whether the model is done or does not run. One that was found done is not asked again.
fn is_over_or_still(standing: &mut Standing, active: &Commit, model: &ModelSpec, tick: u64) -> bool
    requires active { active.now ≡ standing.old.active }
    requires there { IsAmong model.now active.now.tree.models }
    requires timeline_there { IsTrue (has_timeline active.now.tree model.now.timeline) }
    requires last { standing.old.last_tick ≡ tick }
    requires in_time { IsTime tick }
    ensures over { result
        ≡ (if is_unfinished standing.old.list.marks model.now.id
        then is_over active.now.tree tick model.now (start_of standing.old.list.marks model.now.id)
        else true) }
    ensures same { standing.new ≡ standing.old }
{
    match standing.state(model.id()) {
        RunState::Running { start, order } => {
            is_over_now(standing, active, model, tick, Shown { start, order })
        }
        RunState::Done { .. } => true,
        RunState::Waiting | RunState::Finished { .. } | RunState::Aborted => true,
    }
}

// Whether the model is done, which is marked where it is so.
fn is_over_now(
    standing: &mut Standing,
    active: &Commit,
    model: &ModelSpec,
    tick: u64,
    shown: Shown,
) -> bool
    requires active { active.now ≡ standing.old.active }
    requires there { IsAmong model.now active.now.tree.models }
    requires timeline_there { IsTrue (has_timeline active.now.tree model.now.timeline) }
    requires last { standing.old.last_tick ≡ tick }
    requires in_time { IsTime tick }
    requires shown { Some shown ≡ start_of standing.old.list.marks model.now.id }
    requires within { unsigned_abs shown.start ≤ LAST_TIME }
    ensures over { result ≡ is_over active.now.tree tick model.now (start_of standing.old.list.marks model.now.id) }
    ensures same { standing.new ≡ standing.old }
{
    let over = is_over(active, model, tick, shown);
    if over {
        standing.mark_done(model);
    }
    over
}
