//! What of an element a keyframe model may animate.

/// What of an element a keyframe model animates.
#[derive(Clone, Copy, PartialEq, Eq)]
pub enum Property {
    /// How much of what lies behind shows through, in millionths: 0 is invisible, 1,000,000 opaque.
    Opacity,
    /// Where and in what shape the element is drawn: a list of operations.
    Transform,
}

/// Every property, in the order in which a row shows their values.
pub const PROPERTIES: [Property; 2] = [Property::Opacity, Property::Transform];
