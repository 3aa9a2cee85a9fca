//! The steps of the compositor's lane.

/// One step of the compositor.
#[derive(Clone, Copy, PartialEq, Eq)]
pub enum CompositorStep {
    /// Take the newest commit as the pending one, where none is pending.
    Pull,
    /// Make the pending commit the active one.
    Activate,
    /// Draw the frame of this time, in microseconds, after models have finished and started.
    Tick(u64),
}
