//! Scripts of two commits: pull, activate, tick, and expect the news and what element 1 shows.

ghost use Rattle.std.specs.Prelude.{◌≡◌, ◌≤◌, None, Some, OnOk};
ghost use Rattle.anim_host.specs.Hosting.{hosting_after_push, new_hosting};
ghost use Rattle.tree_commit.specs.Trees.{empty_commit};
ghost use Rattle.host_tests.specs.Steps.{OnlyElementsAreNew};

use crate::frames::{Row, Ticked, Told, expect_news, expect_tick};
use crate::second_commit::{first_two, push_next};
use crate::steps::{activate, begin};
use crate::tables::{Said, expect_said};
use active_tree::ActiveTree;
use anim_host::AnimHost;
use std::alloc::{AllocError, Global};
use std::process::Abort;
use std::sync::Arc;
use std::test::Fail;
use test_scripts::{DROPPED_ELEMENT, DROPPED_MODEL, LATE_ELEMENT};
use tree_commit::Commit;

// ---- steps

// The pull of the second commit is no news.
fn expect_pull(
    rt: &impl Abort,
    host: &mut AnimHost,
    active: &ActiveTree,
    commit: &Arc<Commit>,
) -> Result<(), AllocError>
    requires drawn { active.now ≡ host.old.active }
    requires pending { host.old.pending ≡ None }
    requires few { OnlyElementsAreNew active.now.tree commit.now.value.tree }
    requires cleared { host.old.cleared ≡ 0 }
    requires models { 4 ≤ host.old.models }
    ensures { OnOk result (host.new ≡ hosting_after_push host.old commit.now.value) }
{
    let before = host.news().len();
    assert!(rt; active.commit().model_count() <= 4);
    push_next(rt, host, active.commit(), commit)?;
    expect_news(rt, host, before, &[]);
    Ok(())
}

// The second commit becomes active, and these are the news of it.
fn expect_activation(
    rt: &impl Abort,
    host: &mut AnimHost,
    active: &mut ActiveTree,
    commit: Arc<Commit>,
    told: &[Told],
)
    requires drawn { active.old ≡ host.old.active }
    requires pending { host.old.pending ≡ Some commit.value }
    ensures { active.new ≡ host.new.active }
{
    let before = host.news().len();
    assert!(rt; commit.number() == 2);
    activate(host, active, commit);
    expect_news(rt, host, before, told);
}

// ---- what is said of element 1 while nothing blocks it

// It is in no commit.
const NOWHERE: Said = Said {
    active: false,
    pending: false,
    opacity: None,
    transform: None,
};

// The active commit alone has it.
const ACTIVE: Said = Said {
    active: true,
    ..NOWHERE
};

// The pending commit alone has it.
const PENDING: Said = Said {
    pending: true,
    ..NOWHERE
};

// Both have it.
const BOTH: Said = Said {
    pending: true,
    ..ACTIVE
};

// ---- an element that comes

#[test]
fn a_group_starts_once_its_element_is_there(rt: HostRuntime) -> Result<(), Fail> {
    let (first, second) = first_two(&rt, rt.alloc(), LATE_ELEMENT)?;
    let mut host = AnimHost::new(rt.alloc(), 4)?;
    let mut active = ActiveTree::new(rt.alloc())?;
    expect_late_element(&rt, &mut host, &mut active, first, second)?;
    Ok(())
}

fn expect_late_element(
    rt: &impl Abort,
    host: &mut AnimHost,
    active: &mut ActiveTree,
    first: Arc<Commit>,
    second: Arc<Commit>,
) -> Result<(), AllocError>
    requires new { host.old ≡ new_hosting 4 }
    requires drawn { active.old ≡ empty_commit }
    requires few { OnlyElementsAreNew first.value.tree second.value.tree }
{
    let starts = [
        Told::Started(1, 1, 2000, 2000),
        Told::Started(2, 1, 2000, 2000),
    ];
    assert!(rt; first.model_count() <= 4);
    begin(rt, host, active, first)?;
    expect_tick(rt, host, active, Ticked(1000, &[], None))?;
    expect_said(rt, host, NOWHERE);
    expect_pull(rt, host, active, &second)?;
    expect_said(rt, host, PENDING);
    expect_activation(rt, host, active, second, &[]);
    expect_said(rt, host, ACTIVE);
    expect_tick(
        rt,
        host,
        active,
        Ticked(2000, &starts, Some(Row(250_000, Some(5)))),
    )?;
    expect_said(
        rt,
        host,
        Said {
            opacity: Some(1),
            transform: Some(1),
            ..ACTIVE
        },
    );
    Ok(())
}

// ---- what goes

// An element that is gone from the pending commit keeps its group back. A model that waits is not aborted.
#[test]
fn a_group_waits_for_the_pending_commit_too(rt: HostRuntime) -> Result<(), Fail> {
    let ticks = [
        Ticked(1000, &[], Some(Row(1_000_000, None))),
        Ticked(2000, &[], None),
    ];
    let said = [ACTIVE, ACTIVE, NOWHERE, NOWHERE];
    expect_script(&rt, rt.alloc(), DROPPED_ELEMENT, ticks, &[], said)
}

// A model that is gone from the pending commit starts all the same, and is aborted once that commit is active.
#[test]
fn a_model_that_goes_is_aborted_by_the_activation(rt: HostRuntime) -> Result<(), Fail> {
    let ticks = [
        Ticked(1000, &[Told::Started(1, 1, 1000, 1000)], Some(Row(0, None))),
        Ticked(2000, &[], Some(Row(1_000_000, None))),
    ];
    let blocked = Said {
        opacity: Some(1),
        ..BOTH
    };
    let said = [BOTH, blocked, ACTIVE, ACTIVE];
    expect_script(
        &rt,
        rt.alloc(),
        DROPPED_MODEL,
        ticks,
        &[Told::Aborted(1, 2)],
        said,
    )
}

// The second commit of a script is pulled before the first of these ticks and becomes active behind it, with these
// news. Behind each of these four steps this is said of element 1.
fn expect_script(
    rt: &impl Abort,
    alloc: Global,
    text: &str,
    ticks: [Ticked; 2],
    told: &[Told],
    said: [Said; 4],
) -> Result<(), Fail> {
    let (first, second) = first_two(rt, alloc, text)?;
    let mut host = AnimHost::new(alloc, 4)?;
    let mut active = ActiveTree::new(alloc)?;
    expect_change(
        rt,
        &mut host,
        &mut active,
        (first, second),
        ticks,
        told,
        said,
    )?;
    Ok(())
}

fn expect_change(
    rt: &impl Abort,
    host: &mut AnimHost,
    active: &mut ActiveTree,
    commits: (Arc<Commit>, Arc<Commit>),
    ticks: [Ticked; 2],
    told: &[Told],
    said: [Said; 4],
) -> Result<(), AllocError>
    requires new { host.old ≡ new_hosting 4 }
    requires drawn { active.old ≡ empty_commit }
    requires few { OnlyElementsAreNew commits.0.value.tree commits.1.value.tree }
{
    let (first, second) = commits;
    assert!(rt; first.model_count() <= 4);
    begin(rt, host, active, first)?;
    expect_pull(rt, host, active, &second)?;
    expect_said(rt, host, said[0]);
    expect_tick(rt, host, active, ticks[0])?;
    expect_said(rt, host, said[1]);
    expect_activation(rt, host, active, second, told);
    expect_said(rt, host, said[2]);
    expect_tick(rt, host, active, ticks[1])?;
    expect_said(rt, host, said[3]);
    Ok(())
}
