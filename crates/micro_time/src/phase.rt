//! The phases of an animation: before, within and after its iterations.

/// Where a local time lies among an animation's iterations.
#[derive(Clone, Copy, PartialEq, Eq)]
pub enum Phase {
    /// Before their beginning.
    Before,
    /// Within them.
    Active,
    /// At their end or later.
    After,
}
