//! What the host's tables say of element 1 between two steps: which commit has it, and which group blocks what of it.

ghost use Rattle.std.specs.Prelude.{◌≡◌, ◌≤◌, [], None};
ghost use Rattle.tree_commit.specs.Trees.{empty_commit};

use crate::steps::{begin, only_commit, tick};
use active_tree::ActiveTree;
use anim_host::AnimHost;
use anim_names::{ElementId, GroupId, Property, Tree};
use std::alloc::AllocError;
use std::process::Abort;
use std::sync::Arc;
use std::test::Fail;
use test_scripts::TWO_GROUPS;
use tree_commit::Commit;

/// What is said of element 1.
#[derive(Clone, Copy)]
pub struct Said {
    /// Whether the active commit has it.
    pub active: bool,
    /// Whether the pending one does.
    pub pending: bool,
    /// The group that blocks its opacity.
    pub opacity: Option<u32>,
    /// The group that blocks its transform.
    pub transform: Option<u32>,
}

pub fn expect_said(rt: &impl Abort, host: &AnimHost, said: Said) {
    let element = ElementId(1);
    assert!(rt; host.present(Tree::Active, element) == said.active);
    assert!(rt; host.present(Tree::Pending, element) == said.pending);
    expect_blocker(rt, host, Property::Opacity, said.opacity);
    expect_blocker(rt, host, Property::Transform, said.transform);
}

fn expect_blocker(rt: &impl Abort, host: &AnimHost, property: Property, group: Option<u32>) {
    let blocker = host.blocked_by(ElementId(1), property);
    match group {
        None => assert!(rt; blocker.is_none()),
        Some(group) => assert!(rt; blocker == Some(GroupId(group))),
    }
}

// ---- tests

// Each tick of the script with two groups, and the groups that block the opacity and the transform behind it.
const BLOCKERS: [(u64, Option<u32>, Option<u32>); 5] = [
    (0, Some(1), Some(1)),
    (1000, Some(1), Some(1)),
    (2000, Some(1), Some(1)),
    (3000, Some(2), None),
    (4000, None, None),
];

#[test]
fn a_group_blocks_its_properties_until_it_finishes(rt: HostRuntime) -> Result<(), Fail> {
    let commit = only_commit(&rt, rt.alloc(), TWO_GROUPS)?;
    let mut host = AnimHost::new(rt.alloc(), 4)?;
    let mut active = ActiveTree::new(rt.alloc())?;
    expect_blockers(&rt, &mut host, &mut active, commit)?;
    Ok(())
}

fn expect_blockers(
    rt: &impl Abort,
    host: &mut AnimHost,
    active: &mut ActiveTree,
    commit: Arc<Commit>,
) -> Result<(), AllocError>
    requires active { host.old.active ≡ empty_commit }
    requires pending { host.old.pending ≡ None }
    requires marks { host.old.marks ≡ [] }
    requires models { 4 ≤ host.old.models }
    requires drawn { active.old ≡ empty_commit }
{
    assert!(rt; commit.model_count() <= 4);
    begin(rt, host, active, commit)?;
    expect_blockers_of_ticks(rt, host, active)
}

fn expect_blockers_of_ticks(
    rt: &impl Abort,
    host: &mut AnimHost,
    active: &mut ActiveTree,
) -> Result<(), AllocError>
    requires { active.old ≡ host.old.active }
{
    for (time, opacity, transform) in BLOCKERS {
        tick(rt, host, active, time)?;
        expect_said(
            rt,
            host,
            Said {
                active: true,
                pending: false,
                opacity,
                transform,
            },
        );
    }
    Ok(())
}
