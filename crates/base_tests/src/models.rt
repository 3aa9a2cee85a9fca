//! Keyframe models.

ghost use Rattle.easing_fixed.specs.Evaluators.{MayEase, Eases};

use crate::builders::{key, opacity};
use anim_delegate::Policy;
use anim_names::{ElementId, GroupId, ModelId, Property, TimelineId};
use curve_keys::Curve;
use easing_fixed::{Easing, EasingFunction, Evaluator};
use keyframe_model::{CurveOf, ModelSpec, SharedValue, Value};
use micro_time::{Direction, Fill, Iterations, LARGEST_LOCAL, LONGEST_DURATION, Timing};
use std::alloc::Global;
use std::process::Abort;
use std::test::Fail;
use transform_ops::{TransformList, TransformOp};

const DURATION: u64 = 400_000;

// A model whose curve runs once, from a value that eases out to one at its end.
fn model(rt: &impl Abort, curve: CurveOf, offset: i64, fill: Fill) -> Result<ModelSpec, Fail> {
    let once = Iterations::Finite(1000);
    let timing = Timing::new(DURATION, offset, once, 0, Direction::Normal, fill, 1000)?;
    assert!(rt; timing.duration() == curve.duration());
    Ok(ModelSpec::new(
        ModelId(1),
        GroupId(2),
        ElementId(3),
        TimelineId(4),
        Some(5),
        timing,
        Policy::FinishedOnly,
        curve,
    ))
}

fn fade(rt: &impl Abort, alloc: Global) -> Result<CurveOf, Fail> {
    let keys = vec![in alloc;
        key(0, Easing::ease_out(), opacity(0)?),
        key(DURATION, Easing::Linear, opacity(1_000_000)?),
    ]?;
    assert!(rt; keys.iter().all(|key| key.time <= LONGEST_DURATION));
    Ok(CurveOf::Opacity(Curve::new(keys, Easing::Linear)?))
}

fn slide(rt: &impl Abort, alloc: Global) -> Result<CurveOf, Fail> {
    let from = TransformList::new(
        alloc,
        &[TransformOp::Translate {
            x: 0,
            y: 40_000,
            z: 0,
        }],
    )?;
    let to = TransformList::new(alloc, &[TransformOp::Translate { x: 0, y: 0, z: 0 }])?;
    let keys = vec![in alloc;
        key(0, Easing::ease_out(), from),
        key(DURATION, Easing::Linear, to),
    ]?;
    assert!(rt; keys.iter().all(|key| key.time <= LONGEST_DURATION));
    Ok(CurveOf::Transform(Curve::new(keys, Easing::Linear)?))
}

fn value_by<E: EasingFunction + Drop>(
    rt: &impl Abort,
    function: E,
    model: &ModelSpec,
    local: i64,
) -> Result<Option<Value>, Fail>
    requires may_be_called { MayEase (E.asks function) }
    requires exact { Eases (E.answers function) }
{
    assert!(rt; local.unsigned_abs() <= LARGEST_LOCAL);
    let evaluator = Evaluator::new(function);
    Ok(model.value(local, &evaluator)?)
}

// The same value to be shared, where the model gives one.
fn shared_by<E: EasingFunction + Drop>(
    rt: &impl Abort,
    alloc: Global,
    function: E,
    model: &ModelSpec,
    local: i64,
) -> Result<Option<SharedValue>, Fail>
    requires may_be_called { MayEase (E.asks function) }
    requires exact { Eases (E.answers function) }
{
    assert!(rt; local.unsigned_abs() <= LARGEST_LOCAL);
    let evaluator = Evaluator::new(function);
    Ok(SharedValue::at(alloc, model, local, &evaluator)?)
}

fn opacity_at(rt: &impl Abort, model: &ModelSpec, local: i64) -> Result<Option<u32>, Fail> {
    let value = value_by(rt, Easing::value, model, local)?;
    match &value {
        Some(Value::Opacity(opacity)) => Ok(Some(opacity.get())),
        _ => Ok(None),
    }
}

// How far down the element is, where its transform is one translation.
fn y_at(rt: &impl Abort, model: &ModelSpec, local: i64) -> Result<Option<i64>, Fail> {
    let value = value_by(rt, Easing::value, model, local)?;
    match &value {
        Some(Value::Transform(list)) => y_of(rt, list),
        _ => Ok(None),
    }
}

fn y_of(rt: &impl Abort, list: &TransformList) -> Result<Option<i64>, Fail> {
    assert!(rt; list.len() == 1);
    match list.op(0) {
        TransformOp::Translate { x: 0, y, z: 0 } => Ok(Some(y)),
        _ => Ok(None),
    }
}

#[test]
fn a_fade_eases_out(rt: HostRuntime) -> Result<(), Fail> {
    let fade = model(&rt, fade(&rt, rt.alloc())?, 0, Fill::Forwards)?;
    assert!(rt; fade.property() == Property::Opacity);
    assert!(rt; opacity_at(&rt, &fade, -1)? == None);
    assert!(rt; opacity_at(&rt, &fade, 0)? == Some(0));
    assert!(rt; opacity_at(&rt, &fade, 137_000)? == Some(499_998));
    assert!(rt; opacity_at(&rt, &fade, 400_000)? == Some(1_000_000));
    assert!(rt; !fade.is_done(399_999));
    assert!(rt; fade.is_done(400_000));
    Ok(())
}

#[test]
fn a_slide_shows_on_both_sides(rt: HostRuntime) -> Result<(), Fail> {
    let slide = model(&rt, slide(&rt, rt.alloc())?, 0, Fill::Both)?;
    assert!(rt; slide.property() == Property::Transform);
    assert!(rt; y_at(&rt, &slide, -1)? == Some(40_000));
    assert!(rt; y_at(&rt, &slide, 0)? == Some(40_000));
    assert!(rt; y_at(&rt, &slide, 137_000)? == Some(20_000));
    assert!(rt; y_at(&rt, &slide, 400_000)? == Some(0));
    Ok(())
}

#[test]
fn an_offset_moves_the_beginning(rt: HostRuntime) -> Result<(), Fail> {
    let late = model(&rt, fade(&rt, rt.alloc())?, -1000, Fill::Neither)?;
    assert!(rt; opacity_at(&rt, &late, 999)? == None);
    assert!(rt; opacity_at(&rt, &late, 1000)? == Some(0));
    assert!(rt; opacity_at(&rt, &late, 138_000)? == Some(499_998));
    assert!(rt; opacity_at(&rt, &late, 401_000)? == None);
    Ok(())
}

#[test]
fn a_model_keeps_its_parts(rt: HostRuntime) -> Result<(), Fail> {
    let fade = model(&rt, fade(&rt, rt.alloc())?, 0, Fill::Forwards)?;
    assert!(rt; fade.id() == ModelId(1));
    assert!(rt; fade.group() == GroupId(2));
    assert!(rt; fade.element() == ElementId(3));
    assert!(rt; fade.timeline() == TimelineId(4));
    assert!(rt; fade.start() == Some(5));
    assert!(rt; fade.policy() == Policy::FinishedOnly);
    assert!(rt; fade.timing().duration() == DURATION);
    assert!(rt; fade.curve().duration() == DURATION);
    Ok(())
}

#[test]
fn a_shared_value_is_the_models_own(rt: HostRuntime) -> Result<(), Fail> {
    let slide = model(&rt, slide(&rt, rt.alloc())?, 0, Fill::Forwards)?;
    let before = shared_by(&rt, rt.alloc(), Easing::value, &slide, -1)?;
    assert!(rt; before.is_none());
    let shared = shared_by(&rt, rt.alloc(), Easing::value, &slide, 137_000)?.ok_or("no value")?;
    expect_shared(&rt, &shared)?;
    let again = shared.clone()?;
    expect_shared(&rt, &again)
}

// Half of the way is left.
fn expect_shared(rt: &impl Abort, shared: &SharedValue) -> Result<(), Fail> {
    match shared {
        SharedValue::Transform(list) => {
            assert!(rt; y_of(rt, list)? == Some(20_000));
            Ok(())
        }
        SharedValue::Opacity(_) => Err("a value of another property")?,
    }
}
