//! What starts at a tick.

ghost use Rattle.std.specs.Prelude.{◌≡◌, ◌+◌, ◌≤◌, ◌<◌, ◌∷◌, [], ℕ, false, length, map, Option, option_map, slice_get, Some, IsTrue, IfOk};
ghost use Rattle.std.specs.List.{list_any};
ghost use Rattle.anim_host.specs.Fits.{AreSettled, MayStartIn};
ghost use Rattle.keyframe_model.specs.Models.{Spec};
ghost use Rattle.anim_names.specs.Lists.{IsAmong};
ghost use Rattle.anim_host.specs.Ticks.{start_room};
ghost use Rattle.host_tables.specs.CommitGroups.{at_indices, commit_groups};
ghost use Rattle.anim_host.specs.Standing.{pending_has_group, with_new};
ghost use Rattle.anim_timeline.specs.Timelines.{IsTime};
ghost use Rattle.run_rules.specs.Marks.{group_marks, is_group_unfinished, is_ready, start_mark, start_marks, starts_in};
ghost use Rattle.tree_commit.specs.Tables.{HasAllTimelines, has_timeline};
ghost use Rattle.tree_commit.specs.Trees.{Committed, groups_of};

use crate::models::start_at;
use crate::standing::Standing;
use anim_names::GroupId;
use host_tables::{CommitGroups, sum};
use keyframe_model::ModelSpec;
use std::alloc::AllocError;
use tree_commit::Commit;

/// Starts the groups that are ready, in turn, each over the marks so far.
pub(crate) fn start_groups(
    standing: &mut Standing,
    active: &Commit,
    groups: &CommitGroups,
    next: &Option<CommitGroups>,
    tick: u64,
)
    requires active { active.now ≡ standing.old.active }
    requires groups { groups.now ≡ commit_groups active.now.tree.models }
    requires next { next.now ≡ option_map (λ commit. commit_groups commit.tree.models) standing.old.pending }
    requires room { length standing.old.list.marks + (start_room active.now.tree (groups_of active.now.tree) + length active.now.tree.models)
        ≤ standing.old.list.room }
    requires settled { AreSettled active.now.tree.models standing.old.list.marks }
    requires in_time { IsTime tick }
    ensures settled { AreSettled active.now.tree.models standing.new.list.marks }
    ensures marks { standing.new ≡ with_new standing.old
        (start_marks active.now.tree standing.old.pending standing.old.list.marks tick (groups_of active.now.tree)) }
    ensures left { length standing.new.list.marks + length active.now.tree.models ≤ standing.new.list.room }
{
    let _ = active.model_count();
    for index in 0..groups.group_count() {
        start_group(standing, active, groups, next, groups.group_at(index), tick);
    }
}

/// For how many starts there must be room: one for each model of each group.
pub(crate) fn start_room(active: &Commit, groups: &CommitGroups) -> Result<usize, AllocError>
    requires groups { groups.now ≡ commit_groups active.now.tree.models }
    ensures { IfOk result (λ room. room ≡ start_room active.now.tree (groups_of active.now.tree)) }
{
    let mut room = 0;
    for index in 0..groups.group_count() {
        room = sum(room, groups.indices(groups.group_at(index)).len())?;
    }
    Ok(room)
}

// The group as a whole, where it is ready.
fn start_group(
    standing: &mut Standing,
    active: &Commit,
    groups: &CommitGroups,
    next: &Option<CommitGroups>,
    group: GroupId,
    tick: u64,
)
    requires active { active.now ≡ standing.old.active }
    requires groups { groups.now ≡ commit_groups active.now.tree.models }
    requires next { next.now ≡ option_map (λ commit. commit_groups commit.tree.models) standing.old.pending }
    requires room { length standing.old.list.marks + length active.now.tree.models ≤ standing.old.list.room }
    requires timelines_there { HasAllTimelines active.now.tree }
    requires settled { AreSettled active.now.tree.models standing.old.list.marks }
    requires in_time { IsTime tick }
    ensures marks { standing.new ≡ with_new standing.old
        (group_marks active.now.tree standing.old.pending standing.old.list.marks tick group) }
    ensures settled { AreSettled active.now.tree.models standing.new.list.marks }
{
    standing.vouch();
    if is_ready(standing, next, group) {
        start_members(standing, active, groups.indices(group), group, tick);
    }
}

// Each model at these indices, which are those of a group that is ready.
fn start_members(
    standing: &mut Standing,
    active: &Commit,
    indices: &[usize],
    group: GroupId,
    tick: u64,
)
    requires active { active.now ≡ standing.old.active }
    requires waiting { list_any (starts_in group) standing.old.list.marks ≡ false }
    requires members { (model : Spec) → IsAmong model (at_indices active.now.tree.models indices.now)
        → MayStartIn group active.now.tree standing.old.list.marks model }
    requires room { length standing.old.list.marks + length indices.now ≤ standing.old.list.room }
    requires indices { (j index : ℕ) → slice_get indices.now j ≡ Some index → index < length active.now.tree.models }
    requires timelines_there { HasAllTimelines active.now.tree }
    requires in_time { IsTime tick }
    ensures { standing.new ≡ with_new standing.old
        (map (start_mark active.now.tree tick) (at_indices active.now.tree.models indices.now)) }
{
    for position in 0..indices.len() {
        start_one(standing, active, active.model_at(indices[position]), tick);
    }
}

fn start_one(standing: &mut Standing, active: &Commit, model: &ModelSpec, tick: u64)
    requires active { active.now ≡ standing.old.active }
    requires there { IsAmong model.now active.now.tree.models }
    requires may { MayStartIn model.now.group active.now.tree standing.old.list.marks model.now }
    requires whole { list_any (starts_in model.now.group) standing.old.list.marks ≡ is_group_unfinished standing.old.list.marks model.now.group }
    requires room { length standing.old.list.marks < standing.old.list.room }
    requires timeline_there { IsTrue (has_timeline active.now.tree model.now.timeline) }
    requires in_time { IsTime tick }
    ensures { standing.new ≡ with_new standing.old (start_mark active.now.tree tick model.now ∷ []) }
{
    standing.start(model, tick, start_at(active, model, tick));
}

// Whether the group may start, by its row.
fn is_ready(standing: &Standing, next: &Option<CommitGroups>, group: GroupId) -> bool
    requires settled { AreSettled standing.now.active.tree.models standing.now.list.marks }
    requires next { next.now ≡ option_map (λ commit. commit_groups commit.tree.models) standing.now.pending }
    ensures { result ≡ is_ready standing.now.active.tree standing.now.pending standing.now.list.marks group }
{
    standing.is_ready(group, pending_has_group(next, group))
}

// Whether the pending commit, where there is one, has a model of the group.
fn pending_has_group(next: &Option<CommitGroups>, group: GroupId) -> bool
    ensures { (pending : Option Committed)
        → next.now ≡ option_map (λ commit. commit_groups commit.tree.models) pending
        → result ≡ pending_has_group pending group }
{
    match next {
        None => false,
        Some(groups) => groups.has_group(group),
    }
}
