//! What one element shows at a tick, by its own models.
//!
//! One property after the other, each model of the element that animates it is asked. A model whose iterations are over is
//! asked no more: its sample is kept with the commit.

ghost use Rattle.std.specs.Prelude.{◌≡◌, ◌<◌, ◌≤◌, unsigned_abs, All, IsTrue, IfOk, OnOk, IfSome, Some, length, map, slice_get};
ghost use Rattle.anim_names.specs.Lists.{IsAmong};
ghost use Rattle.anim_timeline.specs.Timelines.{IsTime};
ghost use Rattle.micro_time.specs.declared.TheConstants.{LARGEST_LOCAL};
ghost use Rattle.run_rules.specs.Frames.{LocalTimesFit, given_by, row_of, shown_with};
ghost use Rattle.tree_commit.specs.Tables.{has_timeline};
ghost use Rattle.tree_commit.specs.Trees.{local_time};
ghost use Rattle.tree_commit.specs.Views.{look_of};
ghost use Rattle.element_samples.specs.Samples.{beside};
ghost use Rattle.element_samples.specs.Views.{drawn_row_of};
ghost use Rattle.active_tree.specs.ElementModels.{AreListsOf, listed_for};
ghost use Rattle.active_tree.specs.Samples.{LocalTimesFitOf, animated_by, counts_of, counts_with};

use crate::element_models::ElementModels;
use crate::model_list::ModelList;
use crate::sampled_commit::SampledCommit;
use anim_names::{ElementId, PROPERTIES, Property};
use easing_fixed::{EasingFunction, Evaluator};
use element_samples::{FrameRow, Latest, StartTable};
use keyframe_model::ModelSpec;
use std::alloc::AllocError;
use tree_commit::{Base, Shown};

/// What the element at an index of the commit shows at a tick, in microseconds, by what the table of starts shows of
/// the commit's models. The lists of models are those of the commit.
#[tactic(auto, unfolding(run_rules::specs::Frames::row_of))]
pub(crate) fn sample_row<S: StartTable, E: EasingFunction>(
    sampled: &mut SampledCommit,
    models: &ElementModels,
    index: usize,
    time: u64,
    starts: &S,
    evaluator: &Evaluator<E>,
) -> Result<FrameRow, AllocError>
    requires there { index < length sampled.old.tree.elements }
    requires lists { AreListsOf sampled.old.tree.models models.now }
    requires in_time { IsTime time }
    requires locals { LocalTimesFit sampled.old.tree (S.starts starts.now) time }
    ensures row { IfOk result (λ row.
        slice_get (map (row_of sampled.old.tree (S.starts starts.now) time) sampled.old.tree.elements) index
        ≡ Some (drawn_row_of row)) }
    ensures same { sampled.new ≡ sampled.old }
{
    let (element, base) = sampled.commit().element_at(index);
    let mut shown = base.clone()?;
    animate(
        &mut shown, sampled, models, element, time, starts, evaluator,
    )?;
    Ok(FrameRow { element, shown })
}

// Shows the animated values of an element in the place of its own.
fn animate<S: StartTable, E: EasingFunction>(
    shown: &mut Base,
    sampled: &mut SampledCommit,
    models: &ElementModels,
    element: ElementId,
    time: u64,
    starts: &S,
    evaluator: &Evaluator<E>,
) -> Result<(), AllocError>
    requires lists { AreListsOf sampled.old.tree.models models.now }
    requires in_time { IsTime time }
    requires locals { LocalTimesFit sampled.old.tree (S.starts starts.now) time }
    ensures shown { OnOk result (look_of shown.new
        ≡ shown_with (animated_by sampled.old.tree (S.starts starts.now) time (listed_for element models.now)) (look_of shown.old)) }
    ensures same { sampled.new ≡ sampled.old }
{
    let _count = sampled.commit().model_count();
    match models.get(element) {
        None => Ok(()),
        Some(list) => show_list(shown, sampled, list, time, starts, evaluator),
    }
}

// Shows of each property what counts of the models of the list.
fn show_list<S: StartTable, E: EasingFunction>(
    shown: &mut Base,
    sampled: &mut SampledCommit,
    list: &ModelList,
    time: u64,
    starts: &S,
    evaluator: &Evaluator<E>,
) -> Result<(), AllocError>
    requires there { All (λ model. IsAmong model sampled.old.tree.models) list.now }
    requires timelines_there { All (λ model. IsTrue (has_timeline sampled.old.tree model.timeline)) list.now }
    requires in_time { IsTime time }
    requires locals { LocalTimesFitOf list.now sampled.old.tree (S.starts starts.now) time }
    ensures shown { OnOk result (look_of shown.new
        ≡ shown_with (animated_by sampled.old.tree (S.starts starts.now) time list.now) (look_of shown.old)) }
    ensures same { sampled.new ≡ sampled.old }
{
    for property in PROPERTIES {
        let latest = latest_of(sampled, list, property, time, starts, evaluator)?;
        latest.show_on(shown)?;
    }
    Ok(())
}

// What counts of a property once the models of the list were looked at.
fn latest_of<S: StartTable, E: EasingFunction>(
    sampled: &mut SampledCommit,
    list: &ModelList,
    property: Property,
    time: u64,
    starts: &S,
    evaluator: &Evaluator<E>,
) -> Result<Latest, AllocError>
    requires there { All (λ model. IsAmong model sampled.old.tree.models) list.now }
    requires timelines_there { All (λ model. IsTrue (has_timeline sampled.old.tree model.timeline)) list.now }
    requires in_time { IsTime time }
    requires locals { LocalTimesFitOf list.now sampled.old.tree (S.starts starts.now) time }
    ensures latest { IfOk result (λ latest.
        latest ≡ counts_of sampled.old.tree (S.starts starts.now) time property list.now) }
    ensures same { sampled.new ≡ sampled.old }
{
    let mut latest = Latest::none();
    for i in 0..list.len() {
        look_at_model(
            &mut latest,
            sampled,
            list.at(i),
            property,
            time,
            starts,
            evaluator,
        )?;
    }
    Ok(latest)
}

// Counts what one more model of the element gives, where it animates the property.
fn look_at_model<S: StartTable, E: EasingFunction>(
    latest: &mut Latest,
    sampled: &mut SampledCommit,
    model: &ModelSpec,
    property: Property,
    time: u64,
    starts: &S,
    evaluator: &Evaluator<E>,
) -> Result<(), AllocError>
    requires there { IsAmong model.now sampled.old.tree.models }
    requires timeline_there { IsTrue (has_timeline sampled.old.tree model.now.timeline) }
    requires in_time { IsTime time }
    requires local { IfSome (S.starts starts.now model.now.id)
        (λ s. unsigned_abs (local_time sampled.old.tree time model.now s) ≤ LARGEST_LOCAL) }
    ensures latest { OnOk result (
        latest.new ≡ counts_with sampled.old.tree (S.starts starts.now) time property latest.old model.now) }
    ensures same { sampled.new ≡ sampled.old }
{
    if property == model.property() {
        count_model(latest, sampled, model, time, starts, evaluator)
    } else {
        Ok(())
    }
}

// Counts what one more model gives for its property.
fn count_model<S: StartTable, E: EasingFunction>(
    latest: &mut Latest,
    sampled: &mut SampledCommit,
    model: &ModelSpec,
    time: u64,
    starts: &S,
    evaluator: &Evaluator<E>,
) -> Result<(), AllocError>
    requires there { IsAmong model.now sampled.old.tree.models }
    requires timeline_there { IsTrue (has_timeline sampled.old.tree model.now.timeline) }
    requires in_time { IsTime time }
    requires local { IfSome (S.starts starts.now model.now.id)
        (λ s. unsigned_abs (local_time sampled.old.tree time model.now s) ≤ LARGEST_LOCAL) }
    ensures latest { OnOk result (
        latest.new ≡ beside latest.old (given_by sampled.old.tree time model.now (S.starts starts.now model.now.id))) }
    ensures same { sampled.new ≡ sampled.old }
{
    match starts.shown(model.id()) {
        None => Ok(()),
        Some(shown) => count_value(latest, sampled, model, shown, time, evaluator),
    }
}

// Counts the value of a model that is shown so. The model is not asked where a later start counts already.
fn count_value<E: EasingFunction>(
    latest: &mut Latest,
    sampled: &mut SampledCommit,
    model: &ModelSpec,
    shown: Shown,
    time: u64,
    evaluator: &Evaluator<E>,
) -> Result<(), AllocError>
    requires there { IsAmong model.now sampled.old.tree.models }
    requires timeline_there { IsTrue (has_timeline sampled.old.tree model.now.timeline) }
    requires in_time { IsTime time }
    requires local { unsigned_abs (local_time sampled.old.tree time model.now shown) ≤ LARGEST_LOCAL }
    ensures latest { OnOk result (latest.new ≡ beside latest.old (given_by sampled.old.tree time model.now (Some shown))) }
    ensures same { sampled.new ≡ sampled.old }
{
    if latest.is_older(shown.order) {
        if let Some(sample) = sampled.sample(model, shown, time, evaluator)? {
            latest.count(sample, shown.order);
        }
    }
    Ok(())
}
