//! A curve of one property, whichever it is, and a value of one: a case for each property that a model can animate.

ghost use Rattle.std.specs.Prelude.{◌≡◌, ◌≤◌, Some, IfOk, IsOk};
ghost use Rattle.keyframe_model.specs.Models.{property_of_curve, IsPropertyCurve, curve_duration, value_on};
ghost use Rattle.keyframe_model.specs.Views.{curve_of, value_of};

use anim_names::Property;
use curve_keys::Curve;
use easing_fixed::{EasingFunction, Evaluator};
use std::alloc::AllocError;
use transform_ops::TransformList;
use value_blend::Opacity;

/// A curve of one of the properties.
pub enum CurveOf {
    Opacity(Curve<Opacity>),
    Transform(Curve<TransformList>),
}

/// A value of one of the properties.
#[derive(Drop)]
pub enum Value {
    Opacity(Opacity),
    Transform(TransformList),
}

impl Drop for CurveOf {
    fn drop(self) {
        match self {
            CurveOf::Opacity(_curve) => {}
            CurveOf::Transform(_curve) => {}
        }
    }
}

impl CurveOf {
    /// The property that it changes.
    pub fn property(&self) -> Property
        ensures { result ≡ property_of_curve (curve_of self.now) }
    {
        match self {
            CurveOf::Opacity(_) => Property::Opacity,
            CurveOf::Transform(_) => Property::Transform,
        }
    }

    /// Does nothing. What is true of every curve, its clause says of this one.
    pub fn vouch(&self)
        ensures { IsPropertyCurve (curve_of self.now) }
    {
        match self {
            CurveOf::Opacity(curve) => {
                let _ = curve.duration();
            }
            CurveOf::Transform(curve) => {
                let _ = curve.duration();
            }
        }
    }

    /// The last key's time, in microseconds.
    pub fn duration(&self) -> u64
        ensures { result ≡ curve_duration (curve_of self.now) }
    {
        match self {
            CurveOf::Opacity(curve) => curve.duration(),
            CurveOf::Transform(curve) => curve.duration(),
        }
    }

    /// The value at a time, in microseconds from the beginning of the curve.
    pub fn value_at<E: EasingFunction>(
        &self,
        time: u64,
        evaluator: &Evaluator<E>,
    ) -> Result<Value, AllocError>
        requires { time ≤ curve_duration (curve_of self.now) }
        ensures value { IfOk result (λ value. value_on (curve_of self.now) time ≡ Some (value_of value)) }
        ensures without_memory { property_of_curve (curve_of self.now) ≡ Property.Opacity → IsOk result }
    {
        match self {
            CurveOf::Opacity(curve) => Ok(Value::Opacity(curve.value_at(time, evaluator)?)),
            CurveOf::Transform(curve) => Ok(Value::Transform(curve.value_at(time, evaluator)?)),
        }
    }
}
