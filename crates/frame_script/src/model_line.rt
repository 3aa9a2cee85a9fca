//! What the line of a model says before its keys are read: names, timing, policy and easing.

use anim_delegate::Policy;
use anim_names::{ElementId, GroupId, ModelId, Property, TimelineId};
use easing_fixed::Easing;
use micro_time::Timing;

/// The ids that a model's line names, its property and its given start.
#[derive(Clone, Copy)]
pub struct ModelNames {
    pub id: ModelId,
    pub group: GroupId,
    pub element: ElementId,
    pub timeline: TimelineId,
    pub property: Property,
    /// In microseconds.
    pub start: Option<u64>,
}

/// What the line of a model says. The keys of its curve stand on the lines behind it.
#[derive(Clone, Copy)]
pub struct ModelLine {
    pub names: ModelNames,
    /// The timing of a curve of duration 1: how long the curve is shows only after the keys.
    pub timing: Timing,
    pub policy: Policy,
    /// The easing of the curve as a whole.
    pub easing: Easing,
    /// How many keys there are.
    pub keys: usize,
}
