//! Ids: numbers that a script gives, each kind with a type of its own so that they can't be mixed up.

ghost use Rattle.std.specs.Prelude.{ℕ};

use std::marker::Model;

/// Names an element of the page. Free again once the element was removed.
#[derive(Clone, Copy, PartialEq, Eq, Hash)]
pub struct ElementId(pub u32);

impl Model for ElementId {
    ghost Value = { ℕ };

    ghost view = { λ id. id.0 };

    ghost inverse = { λ n. record { 0 = n } };
}

/// Names a keyframe model. Used once in a script, whether the model is still there or not.
#[derive(Clone, Copy, PartialEq, Eq, Hash)]
pub struct ModelId(pub u32);

impl Model for ModelId {
    ghost Value = { ℕ };

    ghost view = { λ id. id.0 };

    ghost inverse = { λ n. record { 0 = n } };
}

/// Names a group: keyframe models of one element that start and finish together.
#[derive(Clone, Copy, PartialEq, Eq, Hash)]
pub struct GroupId(pub u32);

impl Model for GroupId {
    ghost Value = { ℕ };

    ghost view = { λ id. id.0 };

    ghost inverse = { λ n. record { 0 = n } };
}

/// Names a timeline.
#[derive(Clone, Copy, PartialEq, Eq, Hash)]
pub struct TimelineId(pub u32);

impl Model for TimelineId {
    ghost Value = { ℕ };

    ghost view = { λ id. id.0 };

    ghost inverse = { λ n. record { 0 = n } };
}
