//! Edits of main's tree.

use crate::Base;
use anim_names::{ElementId, ModelId, TimelineId};
use anim_timeline::Timeline;
use keyframe_model::{ModelSpec, SharedValue};
use std::sync::Arc;

/// One change of main's tree.
pub enum Edit {
    /// Adds an element, last.
    AddElement { id: ElementId, base: Base },
    /// Removes an element. Its models stay.
    RemoveElement { id: ElementId },
    /// Changes an element's own value of one property.
    SetOwn { id: ElementId, value: SharedValue },
    /// Adds a timeline, last. Timelines are never removed.
    AddTimeline { id: TimelineId, timeline: Timeline },
    /// Adds a keyframe model, last. Its element need not be in the tree.
    AddModel { spec: Arc<ModelSpec> },
    /// Removes a model, where it is still in the tree.
    RemoveModel { id: ModelId },
}

impl Drop for Edit {
    fn drop(self) {
        match self {
            Edit::AddElement { id: _, base: _base } => {}
            Edit::RemoveElement { id: _ } => {}
            Edit::SetOwn {
                id: _,
                value: _value,
            } => {}
            Edit::AddTimeline { id: _, timeline: _ } => {}
            Edit::AddModel { spec: _spec } => {}
            Edit::RemoveModel { id: _ } => {}
        }
    }
}
