//! Curves: keys in order of time, and the value that lies between two of them.
//!
//! A curve has an easing of its own, which bends its time, and each key has one, which bends the progress to the
//! next key. Two values are blended as their type says.
#![tactic(auto)]

pub mod curve;
pub mod fault;
pub mod key;
pub mod worked;

pub use curve::Curve;
pub use fault::CurveFault;
pub use key::Key;

/// The fewest keys of a curve.
pub const FEWEST_KEYS: usize = 2;

/// The most keys of a curve.
pub const MOST_KEYS: usize = 16;
