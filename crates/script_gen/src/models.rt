//! The two models of an element: one fades it out, the other moves it.

ghost use Rattle.std.specs.Prelude.{◌≡◌, ◌*◌, ◌≤◌, IfOk};
ghost use Rattle.micro_time.specs.declared.TheConstants.{LONGEST_DURATION, MOST_ITERATIONS};
ghost use Rattle.keyframe_model.specs.Models.{curve_duration};
ghost use Rattle.keyframe_model.specs.Views.{curve_of};
ghost use Rattle.script_gen.specs.Generated.{direction_of, easing_of, fading, sliding, translation, model_of, opacity_model, transform_model, key_of};

use crate::MOST_GENERATED;
use anim_delegate::Policy;
use anim_names::{ElementId, GroupId, ModelId, TimelineId};
use curve_keys::{Curve, Key};
use easing_fixed::{Easing, StepPosition};
use keyframe_model::{CurveOf, ModelSpec};
use micro_time::{Direction, Fill, Iterations, Timing};
use std::alloc::{AllocError, Global};
use transform_ops::{TransformList, TransformOp};
use value_blend::Opacity;

/// One iteration, in thousandths.
const ONCE: u32 = 1000;

/// How long the shortest fade would take, in microseconds.
const FADE: u64 = 100_000;

/// How much longer each further element fades, in microseconds.
const LONGER: u64 = 1000;

/// How long an element moves, in microseconds.
const SLIDE: u64 = 200_000;

/// How much farther each further element moves.
const FARTHER: u32 = 1000;

/// The model that fades an element out: once or more often, in a direction and with an easing that its number gives.
#[tactic(auto, unfolding(crate::specs::Generated::opacity_model))]
pub(crate) fn opacity_model(alloc: Global, i: u32) -> Result<ModelSpec, AllocError>
    requires some { 1 ≤ i }
    requires few { i ≤ MOST_GENERATED }
    ensures { IfOk result (λ model. model ≡ opacity_model i) }
{
    let curve = CurveOf::Opacity(fading(alloc, i)?);
    let iterations = ONCE * (1 + i % 3);
    Ok(model_of(i, 2 * i - 1, iterations, direction_of(i), curve))
}

/// The model that moves an element along x, in four jumps, the farther the greater its number is.
#[tactic(auto, unfolding(crate::specs::Generated::transform_model))]
pub(crate) fn transform_model(alloc: Global, i: u32) -> Result<ModelSpec, AllocError>
    requires { i ≤ MOST_GENERATED }
    ensures { IfOk result (λ model. model ≡ transform_model i) }
{
    let curve = CurveOf::Transform(sliding(alloc, i)?);
    Ok(model_of(i, 2 * i, ONCE, Direction::Normal, curve))
}

fn model_of(i: u32, id: u32, iterations: u32, direction: Direction, curve: CurveOf) -> ModelSpec
    requires lasts { (1 ≤ curve_duration (curve_of curve)) × (curve_duration (curve_of curve) ≤ LONGEST_DURATION) }
    requires finite { iterations ≤ MOST_ITERATIONS }
    ensures { result ≡ model_of i id iterations direction (curve_of curve) }
{
    let timing = Timing::new(
        curve.duration(),
        0,
        Iterations::Finite(iterations),
        0,
        direction,
        Fill::Both,
        1000,
    )
    .unwrap();
    ModelSpec::new(
        ModelId(id),
        GroupId(i),
        ElementId(i),
        TimelineId(1),
        None,
        timing,
        Policy::Auto,
        curve,
    )
}

fn direction_of(i: u32) -> Direction
    ensures { result ≡ direction_of i }
{
    match i % 4 {
        0 => Direction::Normal,
        1 => Direction::Reverse,
        2 => Direction::Alternate,
        _ => Direction::AlternateReverse,
    }
}

fn easing_of(i: u32) -> Easing
    ensures { result ≡ easing_of i }
{
    if i % 2 == 0 {
        Easing::ease()
    } else {
        Easing::Linear
    }
}

fn fading(alloc: Global, i: u32) -> Result<Curve<Opacity>, AllocError>
    requires { i ≤ MOST_GENERATED }
    ensures { IfOk result (λ curve. curve ≡ fading i) }
{
    let (full, none) = (Opacity::new(1_000_000).unwrap(), Opacity::new(0).unwrap());
    let keys = vec![in alloc;
        key_of(0, Easing::Linear, full),
        key_of(FADE + LONGER * u64::from(i), Easing::Linear, none),
    ]?;
    Ok(Curve::new(keys, easing_of(i)).unwrap())
}

fn sliding(alloc: Global, i: u32) -> Result<Curve<TransformList>, AllocError>
    requires { i ≤ MOST_GENERATED }
    ensures { IfOk result (λ curve. curve ≡ sliding i) }
{
    let in_jumps = Easing::steps(4, StepPosition::JumpEnd).unwrap();
    let keys = vec![in alloc;
        key_of(0, in_jumps, translation(alloc, 0)?),
        key_of(SLIDE, Easing::Linear, translation(alloc, FARTHER * i)?),
    ]?;
    Ok(Curve::new(keys, Easing::Linear).unwrap())
}

fn key_of<V>(time: u64, easing: Easing, value: V) -> Key<V>
    ensures { result ≡ key_of time easing value }
{
    Key {
        time,
        easing,
        value,
    }
}

/// One translation along x. It is in range, so the list is refused for want of memory alone.
pub(crate) fn translation(alloc: Global, x: u32) -> Result<TransformList, AllocError>
    requires { x ≤ 1000 * MOST_GENERATED }
    ensures { IfOk result (λ list. list ≡ translation x) }
{
    let operation = TransformOp::Translate {
        x: i64::from(x),
        y: 0,
        z: 0,
    };
    match TransformList::new(alloc, &[operation]) {
        Ok(list) => Ok(list),
        Err(_) => Err(AllocError),
    }
}
