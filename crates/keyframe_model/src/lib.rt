//! Keyframe models: one curve of one property of one element, with its timing and its policy.
//!
//! A model never changes once it is made. It has a value at each local time at which its timing gives a time of
//! the curve, and it is done once its iterations are over.
#![tactic(auto)]

pub mod curve;
pub mod model;
pub mod shared_value;
pub mod worked;

pub use curve::{CurveOf, Value};
pub use model::ModelSpec;
pub use shared_value::SharedValue;
