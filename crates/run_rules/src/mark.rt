//! Marks: what the compositor notes as keyframe models start, finish and are aborted.

use anim_names::{ElementId, GroupId, ModelId, Property};

/// How a keyframe model started. What it animates stands here too, since a model that has left every commit may still
/// block it.
#[derive(Clone, Copy)]
pub struct Begun {
    /// The group that it started with.
    pub group: GroupId,
    pub element: ElementId,
    pub property: Property,
    /// The time of the tick, in microseconds.
    pub at: u64,
    /// From when its local time counts, in microseconds of its timeline, which may be negative.
    pub start: i64,
}

/// What became of a keyframe model.
#[derive(Clone, Copy)]
pub enum ModelMark {
    /// The model started.
    Started(Begun),
    /// The model finished in the tick of time `at`, in microseconds.
    Finished { at: u64 },
    /// The model was aborted when the commit of this number became active.
    Aborted { commit: u32 },
}

/// What the compositor notes in a step. The marks of a run form one list, and each of them is one event.
///
/// What is asked of a model looks at marks of models alone.
#[derive(Clone, Copy)]
pub enum Mark {
    /// Something became of a keyframe model.
    OfModel { model: ModelId, what: ModelMark },
}
