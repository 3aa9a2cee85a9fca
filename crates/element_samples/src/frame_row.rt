//! What one element shows in a frame.

use anim_names::ElementId;
use tree_commit::Base;

/// What one element shows at a tick.
///
/// The list is shared: a row that no model animates points to the list of its commit.
pub struct FrameRow {
    pub element: ElementId,
    pub shown: Base,
}

impl Drop for FrameRow {
    fn drop(self) {
        let FrameRow {
            element: _,
            shown: _shown,
        } = self;
    }
}
