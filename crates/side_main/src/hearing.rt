//! Main's tree hears events, one after the other.

ghost use Rattle.std.specs.Prelude.{◌≡◌, ◌≤◌, fold, if◌then◌else◌};
ghost use Rattle.frame_exchange.specs.Sides.{retired_by};
ghost use Rattle.main_tree.specs.EditedTrees.{after_hearing};
ghost use Rattle.run_rules.specs.Runs.{retires, tree_after_hearing};

use anim_delegate::{Delegate, VerdictFunction};
use anim_names::AnimEvent;
use main_tree::MainTree;

/// Hears events in order, and says how many models that retired.
pub(crate) fn hear_all<F: VerdictFunction>(
    tree: &mut MainTree,
    events: &[AnimEvent],
    delegate: &Delegate<F>,
) -> usize
    ensures heard { tree.new ≡ record tree.old { tree = fold tree_after_hearing tree.old.tree events.now } }
    ensures retired { result ≡ retired_by tree.old.tree events.now }
{
    let mut retired = 0;
    for event in events {
        retired += hear_one(tree, event, delegate);
    }
    retired
}

// Hears an event, and says how many models that retired: one at most.
fn hear_one<F: VerdictFunction>(
    tree: &mut MainTree,
    event: &AnimEvent,
    delegate: &Delegate<F>,
) -> usize
    ensures heard { tree.new ≡ after_hearing tree.old event.now }
    ensures retired { result ≡ (if retires tree.old.tree event.now then 1 else 0) }
    ensures most { result ≤ 1 }
{
    if tree.hear(event, delegate) { 1 } else { 0 }
}
