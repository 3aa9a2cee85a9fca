//! What the tests are made of: values, models, edits and commits, by few numbers each.

ghost use Rattle.std.specs.Prelude.{◌≤◌, IfSome};
ghost use Rattle.anim_timeline.specs.declared.TheConstants.{LAST_TIME};

use anim_delegate::Policy;
use anim_names::{ElementId, GroupId, ModelId, Property, TimelineId};
use anim_timeline::Timeline;
use curve_keys::{Curve, Key};
use easing_fixed::Easing;
use indexmap::IndexMap;
use keyframe_model::{CurveOf, ModelSpec, SharedValue};
use micro_time::{Direction, Fill, Iterations, LONGEST_DURATION, Timing};
use std::alloc::{AllocError, Global};
use std::process::Abort;
use std::sync::Arc;
use std::test::Fail;
use transform_ops::{TransformList, TransformOp};
use tree_commit::{Base, Commit, Edit};
use value_blend::Opacity;

// How long every model lasts, in microseconds.
const DURATION: u64 = 100_000;

/// The ids of a model, of its group, of its element and of its timeline.
#[derive(Clone, Copy)]
pub struct Names(pub u32, pub u32, pub u32, pub u32);

/// The opacity of this many millionths.
pub fn opacity(millionths: i64) -> Result<Opacity, Fail> {
    Ok(Opacity::new(millionths).ok_or("no opacity")?)
}

/// A list that moves by 1, 2 and 3 thousandths of a pixel.
pub fn moved(alloc: Global) -> Result<TransformList, Fail> {
    Ok(TransformList::new(alloc, &[TransformOp::Translate { x: 1, y: 2, z: 3 }])?)
}

/// What an element shows with this opacity, moved.
pub fn base(alloc: Global, millionths: i64) -> Result<Base, Fail> {
    Ok(Base {
        opacity: opacity(millionths)?,
        transform: Arc::new(alloc, moved(alloc)?)?,
    })
}

fn key<V>(time: u64, value: V) -> Key<V> {
    Key {
        time,
        easing: Easing::Linear,
        value,
    }
}

// From invisible to opaque.
fn fade(rt: &impl Abort, alloc: Global) -> Result<Curve<Opacity>, Fail> {
    let keys = vec![in alloc; key(0, opacity(0)?), key(DURATION, opacity(1_000_000)?)]?;
    assert!(rt; keys.iter().all(|key| key.time <= LONGEST_DURATION));
    Ok(Curve::new(keys, Easing::Linear)?)
}

// From where it is to where it is moved.
fn slide(rt: &impl Abort, alloc: Global) -> Result<Curve<TransformList>, Fail> {
    let keys = vec![in alloc;
        key(0, TransformList::new(alloc, &[])?),
        key(DURATION, moved(alloc)?),
    ]?;
    assert!(rt; keys.iter().all(|key| key.time <= LONGEST_DURATION));
    Ok(Curve::new(keys, Easing::Linear)?)
}

fn curve_of(rt: &impl Abort, alloc: Global, property: Property) -> Result<CurveOf, Fail> {
    match property {
        Property::Opacity => Ok(CurveOf::Opacity(fade(rt, alloc)?)),
        Property::Transform => Ok(CurveOf::Transform(slide(rt, alloc)?)),
    }
}

// A given start, which a test writes as a small number.
fn given(start: Option<u32>) -> Option<u64>
    ensures { IfSome result (λ start. start ≤ LAST_TIME) }
{
    match start {
        None => None,
        Some(start) => Some(u64::from(start)),
    }
}

/// A model of this property that runs once, with this given start or none.
pub fn model(
    rt: &impl Abort,
    alloc: Global,
    names: Names,
    start: Option<u32>,
    property: Property,
) -> Result<Arc<ModelSpec>, Fail> {
    model_under(rt, alloc, Policy::Auto, names, start, property)
}

/// The same, under this policy.
pub fn model_under(
    rt: &impl Abort,
    alloc: Global,
    policy: Policy,
    names: Names,
    start: Option<u32>,
    property: Property,
) -> Result<Arc<ModelSpec>, Fail> {
    let curve = curve_of(rt, alloc, property)?;
    let once = Iterations::Finite(1000);
    let timing = Timing::new(DURATION, 0, once, 0, Direction::Normal, Fill::Neither, 1000)?;
    assert!(rt; timing.duration() == curve.duration());
    let (id, group) = (ModelId(names.0), GroupId(names.1));
    let (element, timeline) = (ElementId(names.2), TimelineId(names.3));
    let start = given(start);
    let spec = ModelSpec::new(id, group, element, timeline, start, timing, policy, curve);
    Ok(Arc::new(alloc, spec)?)
}

/// Adds an opaque element.
pub fn add_element(alloc: Global, id: u32) -> Result<Edit, Fail> {
    Ok(Edit::AddElement {
        id: ElementId(id),
        base: base(alloc, 1_000_000)?,
    })
}

/// Makes an element half opaque.
pub fn set_opacity(id: u32) -> Result<Edit, Fail> {
    Ok(Edit::SetOwn {
        id: ElementId(id),
        value: SharedValue::Opacity(opacity(500_000)?),
    })
}

/// Moves an element.
pub fn set_transform(alloc: Global, id: u32) -> Result<Edit, Fail> {
    Ok(Edit::SetOwn {
        id: ElementId(id),
        value: SharedValue::Transform(Arc::new(alloc, moved(alloc)?)?),
    })
}

/// Adds a timeline that shows 0 at tick 0.
pub fn add_timeline(id: u32) -> Result<Edit, Fail> {
    Ok(Edit::AddTimeline {
        id: TimelineId(id),
        timeline: Timeline::new(0).ok_or("no timeline")?,
    })
}

fn one_element(alloc: Global) -> Result<IndexMap<ElementId, Base>, Fail> {
    let mut elements = IndexMap::new(alloc);
    elements.insert(ElementId(7), base(alloc, 500_000)?)?;
    Ok(elements)
}

fn one_timeline(alloc: Global) -> Result<IndexMap<TimelineId, Timeline>, Fail> {
    let mut timelines = IndexMap::new(alloc);
    timelines.insert(TimelineId(4), Timeline::new(1000).ok_or("no timeline")?)?;
    Ok(timelines)
}

/// A commit of this number that has nothing in it.
pub fn bare_commit(alloc: Global, number: u32) -> Result<Arc<Commit>, AllocError> {
    let elements = IndexMap::new(alloc);
    let models = IndexMap::new(alloc);
    let timelines = IndexMap::new(alloc);
    Commit::build(alloc, number, &elements, &models, &timelines)
}

/// A commit of this number with the half opaque element 7, which is moved, and timeline 4, which shows 0 at 1000.
pub fn small_commit(alloc: Global, number: u32) -> Result<Arc<Commit>, Fail> {
    let elements = one_element(alloc)?;
    let timelines = one_timeline(alloc)?;
    let models = IndexMap::new(alloc);
    Ok(Commit::build(alloc, number, &elements, &models, &timelines)?)
}
