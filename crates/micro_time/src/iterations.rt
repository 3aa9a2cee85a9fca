//! How many iterations an animation has: a number of thousandths, or without end.

/// How often the curve is run through.
#[derive(Clone, Copy, PartialEq, Eq)]
pub enum Iterations {
    /// A number of iterations, in thousandths: 2500 is two and a half, 0 is none.
    Finite(u32),
    /// Over and over.
    Infinite,
}
