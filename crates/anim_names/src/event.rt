//! The events that go from the compositor to main, each about one keyframe model.

use crate::{GroupId, ModelId};

/// What the compositor reports of a keyframe model to main.
#[derive(Clone, Copy, PartialEq, Eq)]
pub enum AnimEvent {
    /// The model started in the tick of time `at`, in microseconds. Its local time counts from `start`, in
    /// microseconds of its timeline, which may be negative.
    Started {
        model: ModelId,
        group: GroupId,
        at: u64,
        start: i64,
    },
    /// The model finished in the tick of time `at`, in microseconds.
    Finished {
        model: ModelId,
        at: u64,
    },
    /// The model was aborted when the commit of this number became active.
    Aborted {
        model: ModelId,
        commit: u32,
    },
}
