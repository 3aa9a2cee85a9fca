//! The two lanes of a run, and the two trees that the compositor's lane has.

/// One of the two threads. Main edits its tree and commits it; the compositor pulls commits and draws frames.
#[derive(Clone, Copy, PartialEq, Eq)]
pub enum Lane {
    Main,
    Compositor,
}

/// One of the compositor's two trees: the pending tree waits for its activation, the active tree is drawn.
#[derive(Clone, Copy, PartialEq, Eq)]
pub enum Tree {
    Pending,
    Active,
}
