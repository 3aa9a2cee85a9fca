//! Types that threads may share. The check of the types is the test.

use active_tree::ActiveTree;
use element_samples::{Frame, FrameRow, Latest};
use frame_exchange::Board;
use main_tree::MainTree;
use pending_tree::PendingTree;
use run_rules::{Begun, CompositorStep, MainStep, Mark, ModelMark};
use tree_commit::{Base, Commit, Edit, EditBook, EditFault, EditRefusal, Shown};

fn is_shared<T: Send + Sync>() {}

#[test]
fn trees_and_what_they_are_made_of_are_shared() {
    is_shared::<EditRefusal>();
    is_shared::<EditFault>();
    is_shared::<EditBook>();
    is_shared::<Base>();
    is_shared::<Edit>();
    is_shared::<Commit>();
    is_shared::<MainTree>();
    is_shared::<PendingTree>();
    is_shared::<ActiveTree>();
}

#[test]
fn steps_and_what_a_run_gives_are_shared() {
    is_shared::<MainStep>();
    is_shared::<CompositorStep>();
    is_shared::<Begun>();
    is_shared::<ModelMark>();
    is_shared::<Mark>();
    is_shared::<Shown>();
    is_shared::<FrameRow>();
    is_shared::<Latest>();
    is_shared::<Frame>();
    is_shared::<Board>();
}
