//! What is aborted at an activation.

ghost use Rattle.std.specs.Prelude.{◌≡◌, ◌+◌, ◌≤◌, ◌<◌, true, length};
ghost use Rattle.host_tables.specs.MarkLists.{mark_if};
ghost use Rattle.anim_host.specs.Standing.{with_new};
ghost use Rattle.anim_names.specs.Lists.{IsAmong};
ghost use Rattle.run_rules.specs.declared.mark.Mark.TheVariants.{OfModel};
ghost use Rattle.run_rules.specs.declared.mark.ModelMark.TheVariants.{Aborted};
ghost use Rattle.run_rules.specs.Marks.{is_lost, marks_of_activation};
ghost use Rattle.tree_commit.specs.Trees.{has_model};

use crate::ends::end_model;
use crate::standing::Standing;
use keyframe_model::ModelSpec;
use run_rules::ModelMark;
use tree_commit::Commit;

/// Appends the new marks as the commit takes the place of the active one. It takes no memory.
pub(crate) fn abort_lost(standing: &mut Standing, active: &Commit, new: &Commit)
    requires active { active.now ≡ standing.old.active }
    requires room { length standing.old.list.marks + length active.now.tree.models ≤ standing.old.list.room }
    ensures { standing.new ≡ with_new standing.old (marks_of_activation active.now.tree new.now standing.old.list.marks) }
{
    for index in 0..active.model_count() {
        abort_one(standing, active.model_at(index), new);
    }
}

// The model's end where it is lost.
fn abort_one(standing: &mut Standing, model: &ModelSpec, new: &Commit)
    requires there { IsAmong model.now standing.old.active.tree.models }
    requires room { length standing.old.list.marks < standing.old.list.room }
    ensures { standing.new ≡ with_new standing.old
        (mark_if (is_lost new.now.tree standing.old.list.marks model.now) (OfModel model.now.id (Aborted new.now.number))) }
{
    if is_lost(standing, model, new) {
        let what = ModelMark::Aborted {
            commit: new.number(),
        };
        end_model(standing, model, &what);
    }
}

// Whether the model is aborted as this commit becomes active.
fn is_lost(standing: &Standing, model: &ModelSpec, new: &Commit) -> bool
    requires there { has_model standing.now.active.tree model.now.id ≡ true }
    ensures { result ≡ is_lost new.now.tree standing.now.list.marks model.now }
{
    let state = standing.state(model.id());
    !state.is_ended()
        && (!new.has_model(model.id())
            || (state.is_unfinished() && !new.has_element(model.element())))
}
