//! The new marks of a tick.

ghost use Rattle.std.specs.Prelude.{◌≡◌, ◌+◌, ◌≤◌, ◌<◌, ◌++◌, ◌∷◌, [], true, length, map, option_map, IfOk, OnOk, OnErr};
ghost use Rattle.anim_host.specs.Ticks.{start_room};
ghost use Rattle.std.specs.List.{AllByRecursion};
ghost use Rattle.keyframe_model.specs.Models.{Spec};
ghost use Rattle.anim_names.specs.Lists.{IsAmong};
ghost use Rattle.anim_host.specs.Fits.{AreSettled};
ghost use Rattle.host_tables.specs.CommitGroups.{at_indices, commit_groups};
ghost use Rattle.anim_host.specs.Standing.{with_new};
ghost use Rattle.anim_timeline.specs.Timelines.{IsTime};
ghost use Rattle.run_rules.specs.declared.mark.Mark.TheVariants.{OfModel};
ghost use Rattle.run_rules.specs.declared.mark.ModelMark.TheVariants.{Finished};
ghost use Rattle.run_rules.specs.Marks.{finishing_models, is_started, marks_of_tick};
ghost use Rattle.tree_commit.specs.Trees.{groups_of};

use crate::ends::end_model;
use crate::finish::finishing;
use crate::standing::Standing;
use crate::starts::{start_groups, start_room};
use host_tables::{CommitGroups, sum};
use keyframe_model::ModelSpec;
use run_rules::ModelMark;
use std::alloc::{AllocError, Global};
use tree_commit::Commit;

/// Appends the new marks of the tick, which is the last one from then on. All memory is taken before, with room left for
/// a mark for each model of the commit.
pub(crate) fn make_tick(
    alloc: Global,
    standing: &mut Standing,
    active: &Commit,
    groups: &CommitGroups,
    next: &Option<CommitGroups>,
    tick: u64,
) -> Result<(), AllocError>
    requires active { active.now ≡ standing.old.active }
    requires groups { groups.now ≡ commit_groups active.now.tree.models }
    requires next { next.now ≡ option_map (λ commit. commit_groups commit.tree.models) standing.old.pending }
    requires settled { AreSettled active.now.tree.models standing.old.list.marks }
    requires later { standing.old.last_tick ≤ tick }
    requires in_time { IsTime tick }
    ensures settled { OnOk result (AreSettled active.now.tree.models standing.new.list.marks) }
    ensures marks { OnOk result (standing.new.list.marks
        ≡ standing.old.list.marks ++ marks_of_tick active.now.tree standing.old.pending standing.old.list.marks tick) }
    ensures same { OnOk result ((standing.new.active ≡ standing.old.active)
        × (standing.new.pending ≡ standing.old.pending)
        × (standing.new.list.cleared ≡ standing.old.list.cleared)
        × (standing.new.last_tick ≡ tick)) }
    ensures left { OnOk result (length standing.new.list.marks + length active.now.tree.models ≤ standing.new.list.room) }
    ensures err { OnErr result (standing.new ≡ standing.old) }
{
    let indices = Vec::with_capacity(alloc, active.model_count())?;
    standing.reserve(tick_room(active, groups)?)?;
    standing.set_last_tick(tick);
    let indices = finishing(standing, active, groups, tick, indices);
    make_marks(standing, active, groups, next, &indices, tick);
    Ok(())
}

// Room for all models to finish, for all groups to start, and for all models to be aborted.
fn tick_room(active: &Commit, groups: &CommitGroups) -> Result<usize, AllocError>
    requires groups { groups.now ≡ commit_groups active.now.tree.models }
    ensures { IfOk result (λ room. room
        ≡ length active.now.tree.models + (start_room active.now.tree (groups_of active.now.tree) + length active.now.tree.models)) }
{
    let models = active.model_count();
    sum(models, sum(start_room(active, groups)?, models)?)
}

#[tactic(auto, unfolding(run_rules::specs::Marks::marks_of_tick))]
fn make_marks(
    standing: &mut Standing,
    active: &Commit,
    groups: &CommitGroups,
    next: &Option<CommitGroups>,
    indices: &[usize],
    tick: u64,
)
    requires active { active.now ≡ standing.old.active }
    requires groups { groups.now ≡ commit_groups active.now.tree.models }
    requires next { next.now ≡ option_map (λ commit. commit_groups commit.tree.models) standing.old.pending }
    requires models { at_indices active.now.tree.models indices.now ≡ finishing_models active.now.tree standing.old.list.marks tick }
    requires within { AllByRecursion (λ index. index < length active.now.tree.models) indices.now }
    requires settled { AreSettled active.now.tree.models standing.old.list.marks }
    requires room { length standing.old.list.marks
        + (length active.now.tree.models + (start_room active.now.tree (groups_of active.now.tree) + length active.now.tree.models))
        ≤ standing.old.list.room }
    requires in_time { IsTime tick }
    ensures marks { standing.new ≡ with_new standing.old
        (marks_of_tick active.now.tree standing.old.pending standing.old.list.marks tick) }
    ensures left { length standing.new.list.marks + length active.now.tree.models ≤ standing.new.list.room }
    ensures settled { AreSettled active.now.tree.models standing.new.list.marks }
{
    finish(standing, active, indices, tick);
    start_groups(standing, active, groups, next, tick);
}

// The models at these indices finish.
fn finish(standing: &mut Standing, active: &Commit, indices: &[usize], tick: u64)
    requires active { active.now ≡ standing.old.active }
    requires within { AllByRecursion (λ index. index < length active.now.tree.models) indices.now }
    requires started { (model : Spec) → IsAmong model (at_indices active.now.tree.models indices.now)
        → is_started standing.old.list.marks model.id ≡ true }
    requires settled { AreSettled active.now.tree.models standing.old.list.marks }
    requires room { length standing.old.list.marks + length indices.now ≤ standing.old.list.room }
    ensures marks { standing.new ≡ with_new standing.old
        (map (λ model. OfModel model.id (Finished tick)) (at_indices active.now.tree.models indices.now)) }
    ensures settled { AreSettled active.now.tree.models standing.new.list.marks }
{
    for position in 0..indices.len() {
        finish_one(standing, active.model_at(indices[position]), tick);
    }
}

fn finish_one(standing: &mut Standing, model: &ModelSpec, tick: u64)
    requires there { IsAmong model.now standing.old.active.tree.models }
    requires started { is_started standing.old.list.marks model.now.id ≡ true }
    requires room { length standing.old.list.marks < standing.old.list.room }
    ensures { standing.new ≡ with_new standing.old (OfModel model.now.id (Finished tick) ∷ []) }
{
    let what = ModelMark::Finished { at: tick };
    end_model(standing, model, &what);
}
