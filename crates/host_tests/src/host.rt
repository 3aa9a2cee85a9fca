//! What a start records, and when a model finishes: tick, step, expect.

ghost use Rattle.std.specs.Prelude.{◌≡◌, ◌≤◌, [], None, OnOk};
ghost use Rattle.tree_commit.specs.Trees.{empty_commit};

use crate::steps::{only_commit, push_first};
use anim_host::AnimHost;
use anim_names::{AnimEvent, GroupId, ModelId};
use anim_timeline::LAST_TIME;
use element_samples::StartTable;
use std::alloc::{AllocError, Global};
use std::process::Abort;
use std::sync::Arc;
use std::test::Fail;
use tree_commit::{Commit, Shown};

// ---- scripts

// How long the model lasts, in microseconds.
const DURATION: u64 = 100_000;

// A model that fades element 1 in, on a timeline that shows 0 at 1000.
const FADE: &str = "anim 1
main
timeline 1 1000
element 1 1000000 none
model 1 1 1 1 opacity - 0 1000 0 normal none 1000 auto linear 2
key 0 linear 0
key 100000 linear 1000000
commit
compositor
word MMMM
end
";

// The same, with a given start.
const FADE_AT_5000: &str = "anim 1
main
timeline 1 1000
element 1 1000000 none
model 1 1 1 1 opacity 5000 0 1000 0 normal none 1000 auto linear 2
key 0 linear 0
key 100000 linear 1000000
commit
compositor
word MMMM
end
";

// ---- steps

// Pulls and activates the host's first commit.
fn begin(
    rt: &impl Abort,
    alloc: Global,
    host: &mut AnimHost,
    commit: &Arc<Commit>,
) -> Result<(), AllocError>
    requires active { host.old.active ≡ empty_commit }
    requires pending { host.old.pending ≡ None }
    requires marks { host.old.marks ≡ [] }
    requires models { 1 ≤ host.old.models }
    ensures { OnOk result (host.new.active ≡ commit.now.value) }
{
    let nothing = Commit::empty(alloc)?;
    assert!(rt; commit.model_count() <= 1);
    push_first(rt, host, commit)?;
    host.activate(&nothing, commit);
    Ok(())
}

fn tick(rt: &impl Abort, host: &mut AnimHost, commit: &Commit, time: u64) -> Result<(), AllocError>
    requires { host.old.active ≡ commit.now }
    ensures { host.new.active ≡ commit.now }
{
    assert!(rt; host.last_tick() <= time);
    assert!(rt; time <= LAST_TIME);
    host.tick(commit, time)
}

// ---- tests

// What the first tick of a model records.
const STARTS: [(&str, u64, i64); 3] = [
    (FADE, 2000, 1000),
    (FADE, 500, -500),
    (FADE_AT_5000, 2000, 5000),
];

#[test]
fn the_recorded_start_is_the_given_one_or_what_the_timeline_shows(
    rt: HostRuntime,
) -> Result<(), Fail> {
    for (text, time, start) in STARTS {
        expect_start(&rt, rt.alloc(), text, time, start)?;
    }
    Ok(())
}

fn expect_start(
    rt: &impl Abort,
    alloc: Global,
    text: &str,
    time: u64,
    start: i64,
) -> Result<(), Fail> {
    let commit = only_commit(rt, alloc, text)?;
    let mut host = AnimHost::new(alloc, 4)?;
    begin(rt, alloc, &mut host, &commit)?;
    tick(rt, &mut host, &commit, time)?;
    expect_started(rt, &host, time, start);
    Ok(())
}

fn expect_started(rt: &impl Abort, host: &AnimHost, at: u64, start: i64) {
    let (model, group) = (ModelId(1), GroupId(1));
    let started = AnimEvent::Started {
        model,
        group,
        at,
        start,
    };
    assert!(rt; host.last_tick() == at);
    assert!(rt; host.news() == [started].as_slice());
    assert!(rt; host.shown(model) == Some(Shown { start, order: 0 }));
}

#[test]
fn a_model_finishes_once(rt: HostRuntime) -> Result<(), Fail> {
    let commit = only_commit(&rt, rt.alloc(), FADE)?;
    let mut host = AnimHost::new(rt.alloc(), 4)?;
    begin(&rt, rt.alloc(), &mut host, &commit)?;
    expect_ticks(&rt, &mut host, &commit)?;
    Ok(())
}

// The start at 2000, and the finish at the first tick that is as long after it as the model lasts.
fn expect_ticks(rt: &impl Abort, host: &mut AnimHost, commit: &Commit) -> Result<(), AllocError>
    requires { host.old.active ≡ commit.now }
{
    expect_tick(rt, host, commit, 2000, 1)?;
    expect_tick(rt, host, commit, DURATION + 1999, 0)?;
    expect_tick(rt, host, commit, DURATION + 2000, 1)?;
    expect_tick(rt, host, commit, DURATION + 2001, 0)
}

// The tick makes this many marks.
fn expect_tick(
    rt: &impl Abort,
    host: &mut AnimHost,
    commit: &Commit,
    time: u64,
    count: usize,
) -> Result<(), AllocError>
    requires { host.old.active ≡ commit.now }
    ensures { host.new.active ≡ commit.now }
{
    host.clear_news();
    tick(rt, host, commit, time)?;
    assert!(rt; host.news().len() == count);
    Ok(())
}
