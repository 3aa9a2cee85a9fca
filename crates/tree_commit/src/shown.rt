//! What is shown of one keyframe model. Who keeps the starts of models is a matter of the layers above.

/// What a frame needs to know of a keyframe model that has started and was not aborted.
#[derive(Clone, Copy, PartialEq, Eq)]
pub struct Shown {
    /// From when its local time counts, in microseconds of its timeline.
    pub start: i64,
    /// The index of its start among the marks. Of two models that give a value, the one that started later counts.
    pub order: u32,
}
