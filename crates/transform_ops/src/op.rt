//! Single transform operations: the range of their numbers, which two match, the neutral one of a kind, and the blend
//! of two.

ghost use Rattle.std.specs.Prelude.{◌≡◌, ◌≤◌, ◌↔◌, ◌&&◌, IsTrue, unsigned_abs};
ghost use Rattle.value_blend.specs.declared.TheConstants.{LARGEST_PROGRESS};
ghost use Rattle.value_blend.specs.Blends.{IsNumber, is_number};

use crate::SAME_SIZE;
use value_blend::{LARGEST_NUMBER, blend_number};

/// One operation of a transform. Every number is at most
/// [`LARGEST_NUMBER`] in size.
#[derive(Clone, Copy, PartialEq, Eq)]
pub enum TransformOp {
    /// Moves, in thousandths of a pixel.
    Translate { x: i64, y: i64, z: i64 },
    /// Grows along each axis, in millionths: [`SAME_SIZE`] leaves the size as it is.
    Scale { x: i64, y: i64, z: i64 },
    /// Turns about the axis (x, y, z), which is kept as it was given, by an angle in thousandths of a degree.
    Rotate { x: i64, y: i64, z: i64, angle: i64 },
    /// Slants along x and y, in thousandths of a degree.
    Skew { x: i64, y: i64 },
}

impl TransformOp {
    ghost use Rattle.transform_ops.specs.Operations.{IsOperation, is_operation, matches, neutral_of, blend_operations};

    /// Whether every number is in range.
    pub fn is_in_range(self) -> bool
        ensures value { result ≡ is_operation self }
        ensures numbers { IsTrue result ↔ IsOperation self }
    {
        match self {
            TransformOp::Translate { x, y, z } => are_numbers(x, y, z),
            TransformOp::Scale { x, y, z } => are_numbers(x, y, z),
            TransformOp::Rotate { x, y, z, angle } => are_numbers(x, y, z) && is_number(angle),
            TransformOp::Skew { x, y } => is_number(x) && is_number(y),
        }
    }

    /// Whether the two can be blended: they are of one kind and, where they turn, turn about one axis.
    pub fn matches(self, other: TransformOp) -> bool
        ensures { result ≡ matches self other }
    {
        match (self, other) {
            (TransformOp::Translate { .. }, TransformOp::Translate { .. }) => true,
            (TransformOp::Scale { .. }, TransformOp::Scale { .. }) => true,
            (TransformOp::Skew { .. }, TransformOp::Skew { .. }) => true,
            (
                TransformOp::Rotate { x, y, z, .. },
                TransformOp::Rotate {
                    x: u,
                    y: v,
                    z: w,
                    ..
                },
            ) => x == u && y == v && z == w,
            _ => false,
        }
    }

    /// The operation of the same kind, and about the same axis, that does nothing.
    pub fn neutral(self) -> TransformOp
        ensures { result ≡ neutral_of self }
    {
        match self {
            TransformOp::Translate { .. } => TransformOp::Translate { x: 0, y: 0, z: 0 },
            TransformOp::Scale { .. } => TransformOp::Scale {
                x: SAME_SIZE,
                y: SAME_SIZE,
                z: SAME_SIZE,
            },
            TransformOp::Rotate { x, y, z, .. } => TransformOp::Rotate { x, y, z, angle: 0 },
            TransformOp::Skew { .. } => TransformOp::Skew { x: 0, y: 0 },
        }
    }

    /// The operation that lies at a progress of the way to another one, number by number. A turn keeps its axis. Two
    /// that don't match are never blended: that gives the first one.
    pub fn blend(self, to: TransformOp, progress: i64) -> TransformOp
        requires from_within { IsOperation self }
        requires to_within { IsOperation to }
        requires progress_within { unsigned_abs progress ≤ LARGEST_PROGRESS }
        ensures value { result ≡ blend_operations self to progress }
        ensures within { IsOperation result }
    {
        match (self, to) {
            (TransformOp::Translate { x, y, z }, TransformOp::Translate { x: u, y: v, z: w }) =>
                TransformOp::Translate {
                    x: blend_number(x, u, progress),
                    y: blend_number(y, v, progress),
                    z: blend_number(z, w, progress),
                },
            (TransformOp::Scale { x, y, z }, TransformOp::Scale { x: u, y: v, z: w }) => {
                TransformOp::Scale {
                    x: blend_number(x, u, progress),
                    y: blend_number(y, v, progress),
                    z: blend_number(z, w, progress),
                }
            }
            (TransformOp::Rotate { x, y, z, angle }, TransformOp::Rotate { angle: other, .. }) => {
                TransformOp::Rotate {
                    x,
                    y,
                    z,
                    angle: blend_number(angle, other, progress),
                }
            }
            (TransformOp::Skew { x, y }, TransformOp::Skew { x: u, y: v }) => TransformOp::Skew {
                x: blend_number(x, u, progress),
                y: blend_number(y, v, progress),
            },
            (from, _) => from,
        }
    }
}

// Whether this may be a number of an operation.
fn is_number(number: i64) -> bool
    ensures value { result ≡ is_number number }
    ensures within { IsTrue result ↔ IsNumber number }
{
    number.unsigned_abs() <= LARGEST_NUMBER
}

// Whether these may be three numbers of an operation.
fn are_numbers(x: i64, y: i64, z: i64) -> bool
    ensures value { result ≡ is_number x && is_number y && is_number z }
    ensures within { IsTrue result ↔ IsNumber x × IsNumber y × IsNumber z }
{
    is_number(x) && is_number(y) && is_number(z)
}
