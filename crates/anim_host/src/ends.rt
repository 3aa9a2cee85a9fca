//! The end of one model.

ghost use Rattle.std.specs.Prelude.{◌≡◌, ◌<◌, ◌∷◌, [], ◌==◌, ◌&&◌, nat_lt, not, true, false, length};
ghost use Rattle.std.specs.List.{list_any};
ghost use Rattle.anim_host.specs.Standing.{with_new};
ghost use Rattle.keyframe_effect.specs.Groups.{one_if};
ghost use Rattle.anim_names.specs.Lists.{IsAmong};
ghost use Rattle.run_rules.specs.declared.mark.Mark.TheVariants.{OfModel};
ghost use Rattle.run_rules.specs.Marks.{is_abort, is_end, is_started, is_unfinished};
ghost use Rattle.tree_commit.specs.Trees.{members_of};

use crate::standing::Standing;
use keyframe_model::ModelSpec;
use run_rules::ModelMark;

/// Ends a model of the active commit: this becomes of it.
pub(crate) fn end_model(standing: &mut Standing, model: &ModelSpec, what: &ModelMark)
    requires room { length standing.old.list.marks < standing.old.list.room }
    requires there { IsAmong model.now standing.old.active.tree.models }
    requires ends { is_end what.now ≡ true }
    requires started { is_abort what.now ≡ false → is_started standing.old.list.marks model.now.id ≡ true }
    ensures { standing.new ≡ with_new standing.old (OfModel model.now.id what.now ∷ []) }
{
    standing.vouch();
    let others = others_run(standing, model);
    standing.end(model, what, !others);
}

// Whether another model of its group runs.
fn others_run(standing: &Standing, model: &ModelSpec) -> bool
    requires there { IsAmong model.now standing.now.active.tree.models }
    ensures { result
        ≡ list_any (λ mate. not (mate.id == model.now.id) && is_unfinished standing.now.list.marks mate.id)
        (members_of standing.now.active.tree model.now.group) }
{
    standing.vouch();
    match standing.group_row(model.group()) {
        None => false,
        Some(row) => more_run(row.unfinished, standing.state(model.id()).is_unfinished()),
    }
}

// Whether another model than this one runs. `count` models run, this one among them where `runs`.
fn more_run(count: usize, runs: bool) -> bool
    ensures { result ≡ nat_lt (one_if runs) count }
{
    count > usize::from(runs)
}
