//! The steps of main's lane.

use tree_commit::Edit;

/// One step of main.
pub enum MainStep {
    /// Change main's tree.
    Edit(Edit),
    /// Publish main's tree as the next commit.
    Commit,
    /// Hear what happened since the last drain.
    Drain,
}

impl Drop for MainStep {
    fn drop(self) {
        match self {
            MainStep::Edit(_edit) => {}
            MainStep::Commit => {}
            MainStep::Drain => {}
        }
    }
}
