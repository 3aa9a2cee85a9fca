//! Values that several holders share: what an element has by itself, and what a keyframe model gives at a tick.

ghost use Rattle.std.specs.Prelude.{◌≡◌, ◌≤◌, unsigned_abs, option_map, IfOk};
ghost use Rattle.keyframe_model.specs.Models.{model_value};
ghost use Rattle.keyframe_model.specs.Views.{shared_value_of, value_of};
ghost use Rattle.micro_time.specs.declared.TheConstants.{LARGEST_LOCAL};

use crate::{ModelSpec, Value};
use easing_fixed::{EasingFunction, Evaluator};
use std::alloc::{AllocError, Global};
use std::sync::Arc;
use transform_ops::TransformList;
use value_blend::Opacity;

/// A value of one of the properties that may be shared.
///
/// A list is shared: the commits that have it, the rows that show it, and whoever keeps it for later ticks point to one
/// list.
#[derive(Drop)]
pub enum SharedValue {
    Opacity(Opacity),
    Transform(Arc<TransformList>),
}

impl SharedValue {
    /// This value, to be shared. An opacity takes no memory.
    pub fn of(alloc: Global, value: Value) -> Result<SharedValue, AllocError>
        ensures { IfOk result (λ shared. shared_value_of shared ≡ value_of value) }
    {
        match value {
            Value::Opacity(opacity) => Ok(SharedValue::Opacity(opacity)),
            Value::Transform(list) => Ok(SharedValue::Transform(Arc::new(alloc, list)?)),
        }
    }

    /// The value that a model gives at a local time, in microseconds, where it gives one.
    pub fn at<E: EasingFunction>(
        alloc: Global,
        model: &ModelSpec,
        local: i64,
        evaluator: &Evaluator<E>,
    ) -> Result<Option<SharedValue>, AllocError>
        requires { unsigned_abs local ≤ LARGEST_LOCAL }
        ensures { IfOk result (λ shared. option_map shared_value_of shared ≡ model_value model.now local) }
    {
        match model.value(local, evaluator)? {
            None => Ok(None),
            Some(value) => Ok(Some(SharedValue::of(alloc, value)?)),
        }
    }
}

impl Clone for SharedValue {
    ghost is_clone = { λ value copy. shared_value_of copy ≡ shared_value_of value };

    /// The same again, with the same list.
    fn clone(&self) -> Result<SharedValue, AllocError> {
        match self {
            SharedValue::Opacity(opacity) => Ok(SharedValue::Opacity(*opacity)),
            SharedValue::Transform(list) => Ok(SharedValue::Transform(list.clone()?)),
        }
    }
}
