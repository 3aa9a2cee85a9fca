//! What one element shows at a tick, by all models of a commit.

ghost use Rattle.std.specs.Prelude.{◌≡◌, ◌<◌, ◌≤◌, unsigned_abs, IsTrue, IfOk, OnOk, IfSome, length, map, option_map, slice_get, Some};
ghost use Rattle.anim_timeline.specs.Timelines.{IsTime};
ghost use Rattle.keyframe_model.specs.Models.{model_value};
ghost use Rattle.micro_time.specs.declared.TheConstants.{LARGEST_LOCAL};
ghost use Rattle.run_rules.specs.Frames.{LocalTimesFit, animated_value, animates, given_by, row_of, shown_look};
ghost use Rattle.tree_commit.specs.Tables.{has_timeline};
ghost use Rattle.tree_commit.specs.Trees.{local_time};
ghost use Rattle.tree_commit.specs.Views.{look_of};
ghost use Rattle.element_samples.specs.Samples.{beside, best_with, value_in};
ghost use Rattle.element_samples.specs.Views.{drawn_row_of};

use crate::{FrameRow, Latest, StartTable};
use anim_names::{ElementId, PROPERTIES, Property};
use easing_fixed::{EasingFunction, Evaluator};
use keyframe_model::{ModelSpec, SharedValue};
use std::alloc::{AllocError, Global};
use tree_commit::{Base, Commit};

/// What the element at an index of the commit shows at a tick, in microseconds, by what the table shows of the
/// commit's models.
///
/// Of the models that give a value the one with the greatest order counts, and of equal orders the first in the commit.
/// The rule is this project's own. It looks at every model of the commit; who draws whole frames knows the models of
/// each element, and counts their samples in the same way.
#[tactic(auto, unfolding(run_rules::specs::Frames::row_of))]
pub fn sample_element<S: StartTable, E: EasingFunction>(
    commit: &Commit,
    index: usize,
    time: u64,
    starts: &S,
    evaluator: &Evaluator<E>,
) -> Result<FrameRow, AllocError>
    requires there { index < length commit.now.tree.elements }
    requires in_time { IsTime time }
    requires locals { LocalTimesFit commit.now.tree (S.starts starts.now) time }
    ensures { IfOk result (λ row.
        slice_get (map (row_of commit.now.tree (S.starts starts.now) time) commit.now.tree.elements) index
        ≡ Some (drawn_row_of row)) }
{
    let (element, base) = commit.element_at(index);
    let shown = animate(commit, element, base, time, starts, evaluator)?;
    Ok(FrameRow { element, shown })
}

// What an element shows: of each property the animated value, else its own.
fn animate<S: StartTable, E: EasingFunction>(
    commit: &Commit,
    element: ElementId,
    base: &Base,
    time: u64,
    starts: &S,
    evaluator: &Evaluator<E>,
) -> Result<Base, AllocError>
    requires in_time { IsTime time }
    requires locals { LocalTimesFit commit.now.tree (S.starts starts.now) time }
    ensures { IfOk result (λ shown. look_of shown ≡ shown_look commit.now.tree (S.starts starts.now) time
        (record { id = element; look = look_of base.now })) }
{
    let mut shown = base.clone()?;
    for property in PROPERTIES {
        let latest = latest_of(commit, element, property, time, starts, evaluator)?;
        latest.show_on(&mut shown)?;
    }
    Ok(shown)
}

// What counts of a property of an element, of all models of the commit.
fn latest_of<S: StartTable, E: EasingFunction>(
    commit: &Commit,
    element: ElementId,
    property: Property,
    time: u64,
    starts: &S,
    evaluator: &Evaluator<E>,
) -> Result<Latest, AllocError>
    requires in_time { IsTime time }
    requires locals { LocalTimesFit commit.now.tree (S.starts starts.now) time }
    ensures { IfOk result (λ latest.
        value_in latest ≡ animated_value commit.now.tree (S.starts starts.now) time element property) }
{
    let mut latest = Latest::none();
    for i in 0..commit.model_count() {
        let model = commit.model_at(i);
        look_at_model(
            &mut latest,
            commit,
            model,
            element,
            property,
            time,
            starts,
            evaluator,
        )?;
    }
    Ok(latest)
}

// Counts what one more model of the commit gives for a property of the element.
fn look_at_model<S: StartTable, E: EasingFunction>(
    latest: &mut Latest,
    commit: &Commit,
    model: &ModelSpec,
    element: ElementId,
    property: Property,
    time: u64,
    starts: &S,
    evaluator: &Evaluator<E>,
) -> Result<(), AllocError>
    requires timeline_there { IsTrue (has_timeline commit.now.tree model.now.timeline) }
    requires in_time { IsTime time }
    requires local { IfSome (S.starts starts.now model.now.id)
        (λ s. unsigned_abs (local_time commit.now.tree time model.now s) ≤ LARGEST_LOCAL) }
    ensures { OnOk result (
        latest.new ≡ best_with commit.now.tree (S.starts starts.now) time element property latest.old model.now) }
{
    if animates(model, element, property) {
        count_model(latest, commit, model, time, starts, evaluator)
    } else {
        Ok(())
    }
}

// Whether the model animates this property of this element.
fn animates(model: &ModelSpec, element: ElementId, property: Property) -> bool
    ensures { result ≡ animates element property model.now }
{
    element == model.element() && property == model.property()
}

// Counts what one more model gives.
fn count_model<S: StartTable, E: EasingFunction>(
    latest: &mut Latest,
    commit: &Commit,
    model: &ModelSpec,
    time: u64,
    starts: &S,
    evaluator: &Evaluator<E>,
) -> Result<(), AllocError>
    requires timeline_there { IsTrue (has_timeline commit.now.tree model.now.timeline) }
    requires in_time { IsTime time }
    requires local { IfSome (S.starts starts.now model.now.id)
        (λ s. unsigned_abs (local_time commit.now.tree time model.now s) ≤ LARGEST_LOCAL) }
    ensures { OnOk result (
        latest.new ≡ beside latest.old (given_by commit.now.tree time model.now (S.starts starts.now model.now.id))) }
{
    match starts.shown(model.id()) {
        None => Ok(()),
        Some(shown) => {
            let local = commit.local_time(model, time, shown);
            count_value(
                latest,
                commit.allocator(),
                model,
                local,
                shown.order,
                evaluator,
            )
        }
    }
}

// Counts the value of a model at a local time, whose start has this order. It is not evaluated where a later start
// counts already.
fn count_value<E: EasingFunction>(
    latest: &mut Latest,
    alloc: Global,
    model: &ModelSpec,
    local: i64,
    order: u32,
    evaluator: &Evaluator<E>,
) -> Result<(), AllocError>
    requires { unsigned_abs local ≤ LARGEST_LOCAL }
    ensures { OnOk result (
        latest.new ≡ beside latest.old (option_map (λ value. record { value = value; order = order }) (model_value model.now local))) }
{
    if latest.is_older(order) {
        if let Some(sample) = SharedValue::at(alloc, model, local, evaluator)? {
            latest.count(sample, order);
        }
    }
    Ok(())
}
