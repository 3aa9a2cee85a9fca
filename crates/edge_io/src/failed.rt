//! The one error of sources and sinks. It has no reason, since no answer of the program depends on one.

/// A source or a sink failed, and no byte moved.
///
/// It does not say what went wrong: the program's answer depends only on which of the two failed.
#[derive(Clone, Copy, Debug, PartialEq, Eq)]
pub struct Failed;
