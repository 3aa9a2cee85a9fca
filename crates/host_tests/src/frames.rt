//! Scripts of the compositor's steps: tick, and expect the news and what element 1 shows.

ghost use Rattle.std.specs.Prelude.{◌≡◌, ◌≤◌, [], None};
ghost use Rattle.tree_commit.specs.Trees.{empty_commit};
ghost use Rattle.host_tests.specs.Steps.{KeepsCommits};

use crate::steps::{begin, only_commit, tick};
use active_tree::ActiveTree;
use anim_host::AnimHost;
use anim_names::{AnimEvent, ElementId, GroupId, ModelId};
use element_samples::Frame;
use std::alloc::{AllocError, Global};
use std::process::Abort;
use std::sync::Arc;
use std::test::Fail;
use test_scripts::TWO_GROUPS;
use transform_ops::{TransformList, TransformOp};
use tree_commit::Commit;

// ---- what is expected

// An event, by its numbers.
#[derive(Clone, Copy)]
pub enum Told {
    // The model and its group, the tick and the start.
    Started(u32, u32, u64, i64),
    // The model and the tick.
    Finished(u32, u64),
    // The model and the number of the commit.
    Aborted(u32, u32),
}

// What element 1 shows: its opacity, and how far it is moved along x, by its one operation, if it has one.
#[derive(Clone, Copy)]
pub struct Row(pub u32, pub Option<i64>);

// A tick, the news that it makes, and the row of element 1 in its frame, where the frame has one.
#[derive(Clone, Copy)]
pub struct Ticked<'a>(pub u64, pub &'a [Told], pub Option<Row>);

fn event_of(told: Told) -> AnimEvent {
    match told {
        Told::Started(model, group, at, start) => AnimEvent::Started {
            model: ModelId(model),
            group: GroupId(group),
            at,
            start,
        },
        Told::Finished(model, at) => AnimEvent::Finished {
            model: ModelId(model),
            at,
        },
        Told::Aborted(model, commit) => AnimEvent::Aborted {
            model: ModelId(model),
            commit,
        },
    }
}

// These are the news behind this many earlier ones.
pub fn expect_news(rt: &impl Abort, host: &AnimHost, before: usize, told: &[Told]) {
    let news = host.news();
    assert!(rt; before <= news.len());
    let new = &news[before..];
    assert!(rt; new.len() == told.len());
    for (event, told) in new.iter().zip(told) {
        assert!(rt; *event == event_of(*told));
    }
}

fn expect_list(rt: &impl Abort, list: &TransformList, x: Option<i64>) {
    match x {
        None => assert!(rt; list.len() == 0),
        Some(x) => {
            assert!(rt; list.len() == 1);
            assert!(rt; list.op(0) == TransformOp::Translate { x, y: 0, z: 0 });
        }
    }
}

fn expect_frame(rt: &impl Abort, frame: &Frame, time: u64, row: Option<Row>) {
    assert!(rt; frame.time() == time);
    match row {
        None => assert!(rt; frame.row_count() == 0),
        Some(row) => expect_row(rt, frame, row),
    }
}

fn expect_row(rt: &impl Abort, frame: &Frame, row: Row) {
    assert!(rt; frame.row_count() == 1);
    let drawn = frame.row(0);
    assert!(rt; drawn.element == ElementId(1));
    assert!(rt; drawn.shown.opacity.get() == row.0);
    expect_list(rt, &drawn.shown.transform, row.1);
}

// ---- ticks

pub fn expect_tick(
    rt: &impl Abort,
    host: &mut AnimHost,
    active: &mut ActiveTree,
    ticked: Ticked,
) -> Result<(), AllocError>
    requires { active.old ≡ host.old.active }
    ensures host { KeepsCommits host.old host.new }
    ensures active { active.new ≡ active.old }
{
    let Ticked(time, told, row) = ticked;
    let before = host.news().len();
    let frame = tick(rt, host, active, time)?;
    expect_news(rt, host, before, told);
    assert!(rt; frame.commit() == active.commit().number());
    expect_frame(rt, &frame, time, row);
    Ok(())
}

fn expect_ticks(
    rt: &impl Abort,
    host: &mut AnimHost,
    active: &mut ActiveTree,
    ticks: &[Ticked],
) -> Result<(), AllocError>
    requires { active.old ≡ host.old.active }
{
    for ticked in ticks {
        expect_tick(rt, host, active, *ticked)?;
    }
    Ok(())
}

// Begins with this commit, and makes these ticks.
fn expect_run(
    rt: &impl Abort,
    host: &mut AnimHost,
    active: &mut ActiveTree,
    commit: Arc<Commit>,
    ticks: &[Ticked],
) -> Result<(), AllocError>
    requires active { host.old.active ≡ empty_commit }
    requires pending { host.old.pending ≡ None }
    requires marks { host.old.marks ≡ [] }
    requires models { 4 ≤ host.old.models }
    requires drawn { active.old ≡ empty_commit }
{
    assert!(rt; commit.model_count() <= 4);
    begin(rt, host, active, commit)?;
    expect_ticks(rt, host, active, ticks)
}

// The one commit of a script, pulled and activated before these ticks.
fn expect_script(rt: &impl Abort, alloc: Global, text: &str, ticks: &[Ticked]) -> Result<(), Fail> {
    let commit = only_commit(rt, alloc, text)?;
    let mut host = AnimHost::new(alloc, 4)?;
    let mut active = ActiveTree::new(alloc)?;
    expect_run(rt, &mut host, &mut active, commit, ticks)?;
    Ok(())
}

// ---- tests

// Models 1 and 2 are of two groups and fade element 1.
const TWO_FADES: &str = "anim 1
main
timeline 1 0
element 1 1000000 none
model 1 1 1 1 opacity - 0 1000 0 normal none 1000 auto linear 2
key 0 linear 0
key 1000 linear 1000000
model 2 2 1 1 opacity - 0 1000 0 normal none 1000 auto linear 2
key 0 linear 500000
key 1000 linear 0
commit
compositor
word MMMMM
end
";

#[test]
fn of_two_groups_on_one_property_the_first_starts_alone(rt: HostRuntime) -> Result<(), Fail> {
    let ticks = [Ticked(0, &[Told::Started(1, 1, 0, 0)], Some(Row(0, None)))];
    expect_script(&rt, rt.alloc(), TWO_FADES, &ticks)
}

// Group 1 is done with its longer model, and then group 2 starts.
#[test]
fn a_group_starts_once_the_one_before_it_is_done(rt: HostRuntime) -> Result<(), Fail> {
    let starts = [Told::Started(1, 1, 0, 0), Told::Started(2, 1, 0, 0)];
    let changes = [
        Told::Finished(1, 3000),
        Told::Finished(2, 3000),
        Told::Started(3, 2, 3000, 3000),
    ];
    let ticks = [
        Ticked(0, &starts, Some(Row(0, Some(0)))),
        Ticked(1000, &[], Some(Row(1_000_000, Some(999)))),
        Ticked(2000, &[], Some(Row(1_000_000, Some(1999)))),
        Ticked(3000, &changes, Some(Row(500_000, None))),
        Ticked(4000, &[Told::Finished(3, 4000)], Some(Row(1_000_000, None))),
    ];
    expect_script(&rt, rt.alloc(), TWO_GROUPS, &ticks)
}

// Model 1 starts at 5000 of a timeline that shows 0 at 1000, and its first value stands before.
const FILLED_BEFORE: &str = "anim 1
main
timeline 1 1000
element 1 1000000 none
model 1 1 1 1 opacity 5000 0 1000 0 normal backwards 1000 auto linear 2
key 0 linear 250000
key 1000 linear 0
commit
compositor
word MMMM
end
";

// The same, and its first value does not stand before.
const FILLED_BEHIND: &str = "anim 1
main
timeline 1 1000
element 1 1000000 none
model 1 1 1 1 opacity 5000 0 1000 0 normal forwards 1000 auto linear 2
key 0 linear 250000
key 1000 linear 0
commit
compositor
word MMMM
end
";

const FILLS: [(&str, u32); 2] = [(FILLED_BEFORE, 250_000), (FILLED_BEHIND, 1_000_000)];

#[test]
fn before_a_given_start_the_first_value_stands_by_the_fill(rt: HostRuntime) -> Result<(), Fail> {
    for (text, opacity) in FILLS {
        let ticks = [Ticked(
            2000,
            &[Told::Started(1, 1, 2000, 5000)],
            Some(Row(opacity, None)),
        )];
        expect_script(&rt, rt.alloc(), text, &ticks)?;
    }
    Ok(())
}
