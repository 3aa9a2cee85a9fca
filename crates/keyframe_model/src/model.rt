//! Keyframe models as a script makes them: names, timing, policy and a curve, none of which ever changes. Whether a
//! model runs is known elsewhere.

ghost use Rattle.std.specs.Prelude.{◌≡◌, ◌≤◌, ◌↔◌, unsigned_abs, IfSome, IfOk, IsNone, IsOk, None, option_map};
ghost use Rattle.anim_timeline.specs.declared.TheConstants.{LAST_TIME};
ghost use Rattle.micro_time.specs.declared.TheConstants.{LARGEST_LOCAL};
ghost use Rattle.micro_time.specs.Timings.{is_done, curve_time};

use crate::{CurveOf, Value};
use anim_delegate::Policy;
use anim_names::{ElementId, GroupId, ModelId, Property, TimelineId};
use easing_fixed::{EasingFunction, Evaluator};
use micro_time::Timing;
use std::alloc::AllocError;
use std::marker::Model;

/// A keyframe model: a curve of one property of one element, when it runs, and what becomes of it once it ended.
///
/// It belongs to a group, whose models start and finish together, and never changes. Contracts see it as plain data.
pub struct ModelSpec {
    id: ModelId,
    group: GroupId,
    element: ElementId,
    timeline: TimelineId,
    start: Option<u64>,
    timing: Timing,
    policy: Policy,
    curve: CurveOf,
}

impl Model for ModelSpec {
    ghost use Rattle.keyframe_model.specs.Models.{Spec, model_parts, IsModel};

    ghost Value = { Spec };

    ghost use Rattle.keyframe_model.specs.Views.{curve_of};

    ghost view = { λ m.
        model_parts m.id m.group m.element m.timeline m.start m.timing m.policy (curve_of m.curve) };

    ghost invariant = { λ m.
        IsModel (model_parts m.id m.group m.element m.timeline m.start m.timing m.policy (curve_of m.curve)) };
}

impl Drop for ModelSpec {
    fn drop(self) {
        let ModelSpec {
            id: _,
            group: _,
            element: _,
            timeline: _,
            start: _,
            timing: _,
            policy: _,
            curve: _curve,
        } = self;
    }
}

impl ModelSpec {
    ghost use Rattle.keyframe_model.specs.Models.{model_parts, IsModel, property_of, curve_duration, model_value};
    ghost use Rattle.keyframe_model.specs.Views.{curve_of, value_of};

    /// Makes a model of its parts. The timing's duration is the curve's. A start, in microseconds of the timeline, is
    /// given where the local time is not to count from the tick at which the model starts.
    pub fn new(
        id: ModelId,
        group: GroupId,
        element: ElementId,
        timeline: TimelineId,
        start: Option<u64>,
        timing: Timing,
        policy: Policy,
        curve: CurveOf,
    ) -> ModelSpec
        requires one_duration { timing.duration ≡ curve_duration (curve_of curve) }
        requires start_within { IfSome start (λ start. start ≤ LAST_TIME) }
        ensures { result ≡ model_parts id group element timeline start timing policy (curve_of curve) }
    {
        let _ = (id.0, group.0, element.0, timeline.0, timing.duration());
        curve.vouch();
        ModelSpec {
            id,
            group,
            element,
            timeline,
            start,
            timing,
            policy,
            curve,
        }
    }

    /// Its own name.
    pub fn id(&self) -> ModelId
        ensures value { result ≡ self.now.id }

        // So is every model.
        ensures in_range { IsModel self.now }
    {
        self.id
    }

    /// The group that it starts and finishes with.
    pub fn group(&self) -> GroupId
        ensures { result ≡ self.now.group }
    {
        self.group
    }

    /// The element that it animates.
    pub fn element(&self) -> ElementId
        ensures { result ≡ self.now.element }
    {
        self.element
    }

    /// The timeline whose time it follows.
    pub fn timeline(&self) -> TimelineId
        ensures { result ≡ self.now.timeline }
    {
        self.timeline
    }

    /// The time of its timeline from which its local time counts, where it is given, in microseconds.
    pub fn start(&self) -> Option<u64>
        ensures { result ≡ self.now.start }
    {
        self.start
    }

    /// When it runs.
    pub fn timing(&self) -> &Timing
        ensures { result.now ≡ self.now.timing }
    {
        &self.timing
    }

    /// After which event main drops it by itself.
    pub fn policy(&self) -> Policy
        ensures { result ≡ self.now.policy }
    {
        self.policy
    }

    /// The values that it goes through.
    pub fn curve(&self) -> &CurveOf
        ensures { curve_of result.now ≡ self.now.curve }
    {
        &self.curve
    }

    /// What of its element it animates.
    pub fn property(&self) -> Property
        ensures { result ≡ property_of self.now }
    {
        self.curve.property()
    }

    /// Whether its iterations are over at a local time in microseconds.
    pub fn is_done(&self, local: i64) -> bool
        requires { unsigned_abs local ≤ LARGEST_LOCAL }
        ensures { result ≡ is_done self.now.timing local }
    {
        self.timing.is_done(local)
    }

    /// The value at a local time in microseconds. There is none exactly where the timing gives no time of the curve:
    /// before or after the iterations without the fill for it.
    #[tactic(auto, unfolding(crate::specs::Models::model_value))]
    pub fn value<E: EasingFunction>(
        &self,
        local: i64,
        evaluator: &Evaluator<E>,
    ) -> Result<Option<Value>, AllocError>
        requires { unsigned_abs local ≤ LARGEST_LOCAL }
        ensures value { IfOk result (λ value. option_map value_of value ≡ model_value self.now local) }
        ensures none { IfOk result (λ value. IsNone value ↔ (curve_time self.now.timing local ≡ None)) }
        ensures without_memory { property_of self.now ≡ Property.Opacity → IsOk result }
    {
        match self.timing.curve_time(local) {
            Some(time) => Ok(Some(self.curve.value_at(time, evaluator)?)),
            None => Ok(None),
        }
    }
}
