//! Main's steps: elements and models are added, some of them are dropped again, and commits come in between.

ghost use Rattle.std.specs.Prelude.{◌≡◌, ◌++◌, ◌∷◌, [], ◌≤◌, map, IfOk, OnOk};
ghost use Rattle.std.specs.List.{flat_map, range_with_len};
ghost use Rattle.tree_commit.specs.Edits.{AddElement, AddModel, OnElements, OnModels};
ghost use Rattle.run_rules.specs.Scripts.{EditStep};
ghost use Rattle.tree_commit.specs.Views.{change_of, look_of};
ghost use Rattle.run_rules.specs.Views.{step_of};
ghost use Rattle.script_gen.specs.Generated.{first_look, commit_and_drain, adding_steps, dropping_steps, main_steps};

use crate::MOST_GENERATED;
use crate::models::{opacity_model, transform_model, translation};
use anim_names::{ElementId, ModelId, TimelineId};
use anim_timeline::Timeline;
use keyframe_model::ModelSpec;
use run_rules::MainStep;
use std::alloc::{AllocError, Global};
use std::sync::Arc;
use tree_commit::{Base, Edit};
use value_blend::Opacity;

/// A commit comes after each element whose number this divides.
const ELEMENTS_PER_COMMIT: u32 = 8;

/// The second model of an element goes where this divides the element's number.
const ELEMENTS_PER_DROPPED_MODEL: u32 = 5;

/// An element goes where this divides its number.
const ELEMENTS_PER_DROPPED_ELEMENT: u32 = 7;

/// Main's steps for this number of elements.
pub(crate) fn main_steps(alloc: Global, n: u32) -> Result<Vec<MainStep>, AllocError>
    requires some { 1 ≤ n }
    requires few { n ≤ MOST_GENERATED }
    ensures { IfOk result (λ steps. map step_of steps.items ≡ main_steps n) }
{
    let mut steps = Vec::new(alloc);
    push_all(alloc, &mut steps, n)?;
    Ok(steps)
}

#[tactic(auto, unfolding(crate::specs::Generated::main_steps))]
fn push_all(alloc: Global, steps: &mut Vec<MainStep>, n: u32) -> Result<(), AllocError>
    requires some { 1 ≤ n }
    requires few { n ≤ MOST_GENERATED }
    ensures { OnOk result (map step_of steps.new.items ≡ map step_of steps.old.items ++ main_steps n) }
{
    let timeline = Timeline::new(0).unwrap();
    push_edit(
        steps,
        Edit::AddTimeline {
            id: TimelineId(1),
            timeline,
        },
    )?;
    push_all_adding(alloc, steps, n)?;
    push_commit_and_drain(steps)?;
    push_all_dropping(steps, n)?;
    push_commit_and_drain(steps)
}

fn push_all_adding(alloc: Global, steps: &mut Vec<MainStep>, n: u32) -> Result<(), AllocError>
    requires some { 1 ≤ n }
    requires few { n ≤ MOST_GENERATED }
    ensures { OnOk result (map step_of steps.new.items
        ≡ map step_of steps.old.items ++ flat_map adding_steps (range_with_len 1 n)) }
{
    for i in 1..=n {
        push_adding(alloc, steps, i)?;
    }
    Ok(())
}

fn push_all_dropping(steps: &mut Vec<MainStep>, n: u32) -> Result<(), AllocError>
    requires some { 1 ≤ n }
    requires few { n ≤ MOST_GENERATED }
    ensures { OnOk result (map step_of steps.new.items
        ≡ map step_of steps.old.items ++ flat_map dropping_steps (range_with_len 1 n)) }
{
    for i in 1..=n {
        push_dropping(steps, i)?;
    }
    Ok(())
}

#[tactic(auto, unfolding(crate::specs::Generated::adding_steps))]
fn push_adding(alloc: Global, steps: &mut Vec<MainStep>, i: u32) -> Result<(), AllocError>
    requires some { 1 ≤ i }
    requires few { i ≤ MOST_GENERATED }
    ensures { OnOk result (map step_of steps.new.items ≡ map step_of steps.old.items ++ adding_steps i) }
{
    push_element(alloc, steps, i)?;
    push_model(alloc, steps, opacity_model(alloc, i)?)?;
    push_model(alloc, steps, transform_model(alloc, i)?)?;
    if i % ELEMENTS_PER_COMMIT == 0 {
        push_commit_and_drain(steps)?;
    }
    Ok(())
}

#[tactic(auto, unfolding(crate::specs::Generated::dropping_steps))]
fn push_dropping(steps: &mut Vec<MainStep>, i: u32) -> Result<(), AllocError>
    requires { i ≤ MOST_GENERATED }
    ensures { OnOk result (map step_of steps.new.items ≡ map step_of steps.old.items ++ dropping_steps i) }
{
    if i % ELEMENTS_PER_DROPPED_MODEL == 0 {
        push_edit(steps, Edit::RemoveModel { id: ModelId(2 * i) })?;
    }
    if i % ELEMENTS_PER_DROPPED_ELEMENT == 0 {
        push_edit(steps, Edit::RemoveElement { id: ElementId(i) })?;
    }
    Ok(())
}

fn push_element(alloc: Global, steps: &mut Vec<MainStep>, i: u32) -> Result<(), AllocError>
    ensures { OnOk result (map step_of steps.new.items
        ≡ map step_of steps.old.items ++ EditStep (OnElements (AddElement i first_look)) ∷ []) }
{
    let base = first_base(alloc)?;
    push_edit(
        steps,
        Edit::AddElement {
            id: ElementId(i),
            base,
        },
    )
}

// An opaque element where it stands.
fn first_base(alloc: Global) -> Result<Base, AllocError>
    ensures { IfOk result (λ base. look_of base ≡ first_look) }
{
    Ok(Base {
        opacity: Opacity::new(1_000_000).unwrap(),
        transform: Arc::new(alloc, translation(alloc, 0)?)?,
    })
}

fn push_model(alloc: Global, steps: &mut Vec<MainStep>, model: ModelSpec) -> Result<(), AllocError>
    ensures { OnOk result (map step_of steps.new.items
        ≡ map step_of steps.old.items ++ EditStep (OnModels (AddModel model)) ∷ []) }
{
    let spec = Arc::new(alloc, model)?;
    push_edit(steps, Edit::AddModel { spec })
}

fn push_edit(steps: &mut Vec<MainStep>, edit: Edit) -> Result<(), AllocError>
    ensures { OnOk result (map step_of steps.new.items
        ≡ map step_of steps.old.items ++ EditStep (change_of edit) ∷ []) }
{
    steps.push(MainStep::Edit(edit))?;
    Ok(())
}

fn push_commit_and_drain(steps: &mut Vec<MainStep>) -> Result<(), AllocError>
    ensures { OnOk result (map step_of steps.new.items ≡ map step_of steps.old.items ++ commit_and_drain) }
{
    steps.push(MainStep::Commit)?;
    steps.push(MainStep::Drain)?;
    Ok(())
}
