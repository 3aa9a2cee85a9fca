//! Steps of the compositor's host and of an active tree beside it, over commits of scripts.

ghost use Rattle.std.specs.Prelude.{◌≡◌, ◌≤◌, ◌-ℤ◌, ℕ, [], None, Some, IfSome, IfOk, IsTrue, OnOk, length, slice_get, unsigned_abs};
ghost use Rattle.anim_host.specs.Hosting.{hosting_after_activation, shown_in};
ghost use Rattle.anim_timeline.specs.Timelines.{IsTime};
ghost use Rattle.anim_timeline.specs.declared.TheConstants.{LAST_TIME};
ghost use Rattle.easing_fixed.specs.Evaluators.{MayEase, Eases};
ghost use Rattle.tree_commit.specs.Tables.{has_timeline};
ghost use Rattle.keyframe_model.specs.Models.{Spec};
ghost use Rattle.micro_time.specs.declared.TheConstants.{LARGEST_LOCAL};
ghost use Rattle.run_rules.specs.Follows.{AgreeAsGroup};
ghost use Rattle.run_rules.specs.Frames.{LocalTimesFit};
ghost use Rattle.tree_commit.specs.Trees.{empty_commit, local_time};
ghost use Rattle.host_tests.specs.Steps.{GroupsAgree, KeepsCommits};

use active_tree::ActiveTree;
use anim_host::AnimHost;
use anim_names::limit::MOST_COMMITS;
use anim_timeline::LAST_TIME;
use easing_fixed::{Easing, EasingFunction, Evaluator};
use element_samples::{Frame, StartTable};
use keyframe_model::ModelSpec;
use main_tree::MainTree;
use micro_time::LARGEST_LOCAL;
use run_rules::MainStep;
use script_reader::read_script;
use std::alloc::{AllocError, Global};
use std::process::Abort;
use std::sync::Arc;
use std::test::Fail;
use tree_commit::{Commit, Shown};

// ---- commits

/// The one commit of a script.
pub fn only_commit(rt: &impl Abort, alloc: Global, text: &str) -> Result<Arc<Commit>, Fail> {
    let script = read_script(alloc, text.as_bytes())?;
    let mut main = MainTree::new(alloc)?;
    make_edits(rt, &mut main, script.main());
    next_commit(rt, &mut main)
}

/// Makes the edits among these steps.
pub fn make_edits(rt: &impl Abort, main: &mut MainTree, steps: &[MainStep]) {
    for step in steps {
        if let MainStep::Edit(edit) = step {
            assert!(rt; main.edit(edit) == Ok(true));
        }
    }
}

/// The commit of main's tree.
pub fn next_commit(rt: &impl Abort, main: &mut MainTree) -> Result<Arc<Commit>, Fail>
    ensures commit { IfOk result (λ commit. commit.value.tree ≡ main.old.tree) }
    ensures same { main.new.tree ≡ main.old.tree }
{
    assert!(rt; main.commits() < MOST_COMMITS);
    Ok(main.commit()?)
}

// ---- what the host asks of a commit

/// The models of a group agree.
pub fn expect_groups(rt: &impl Abort, commit: &Commit)
    ensures { GroupsAgree commit.now.tree }
{
    for i in 0..commit.model_count() {
        expect_mates(rt, commit, commit.model_at(i));
    }
}

fn expect_mates(rt: &impl Abort, commit: &Commit, model: &ModelSpec)
    ensures { (k : ℕ) (mate : Spec) → slice_get commit.now.tree.models k ≡ Some mate → model.now.group ≡ mate.group
        → AgreeAsGroup model.now mate }
{
    for j in 0..commit.model_count() {
        expect_mate(rt, model, commit.model_at(j));
    }
}

fn expect_mate(rt: &impl Abort, model: &ModelSpec, mate: &ModelSpec)
    ensures { model.now.group ≡ mate.now.group → AgreeAsGroup model.now mate.now }
{
    if model.group() == mate.group() {
        assert!(rt; model.element() == mate.element());
        assert!(rt; model.timeline() == mate.timeline());
        assert!(rt; model.start() == mate.start());
        assert!(rt; model.id() == mate.id() || model.property() != mate.property());
    }
}

// ---- steps

/// Pulls the host's first commit.
pub fn push_first(
    rt: &impl Abort,
    host: &mut AnimHost,
    commit: &Arc<Commit>,
) -> Result<(), AllocError>
    requires active { host.old.active ≡ empty_commit }
    requires pending { host.old.pending ≡ None }
    requires marks { host.old.marks ≡ [] }
    requires models { length commit.now.value.tree.models ≤ host.old.models }
    ensures active { host.new.active ≡ host.old.active }
    ensures pending { OnOk result (host.new.pending ≡ Some commit.now.value) }
    ensures cleared { host.new.cleared ≡ host.old.cleared }
    ensures same { host.new.models ≡ host.old.models }
{
    expect_groups(rt, commit);
    host.push_commit(commit)
}

/// Pulls and activates the first commit, in the host and in the tree.
pub fn begin(
    rt: &impl Abort,
    host: &mut AnimHost,
    active: &mut ActiveTree,
    commit: Arc<Commit>,
) -> Result<(), AllocError>
    requires active { host.old.active ≡ empty_commit }
    requires pending { host.old.pending ≡ None }
    requires marks { host.old.marks ≡ [] }
    requires models { length commit.value.tree.models ≤ host.old.models }
    requires drawn { active.old ≡ empty_commit }
    ensures host { OnOk result (host.new.active ≡ commit.value) }
    ensures pending { OnOk result (host.new.pending ≡ None) }
    ensures cleared { host.new.cleared ≡ host.old.cleared }
    ensures same { host.new.models ≡ host.old.models }
    ensures active { OnOk result (active.new ≡ commit.value) }
{
    push_first(rt, host, &commit)?;
    activate(host, active, commit);
    Ok(())
}

/// Activates the pending commit, in the host and in the tree.
pub fn activate(host: &mut AnimHost, active: &mut ActiveTree, commit: Arc<Commit>)
    requires drawn { active.old ≡ host.old.active }
    requires pending { host.old.pending ≡ Some commit.value }
    ensures host { host.new ≡ hosting_after_activation host.old commit.value }
    ensures active { active.new ≡ commit.value }
{
    host.activate(active.commit(), &commit);
    active.set(commit);
}

/// Makes the marks of a tick and draws its frame.
pub fn tick(
    rt: &impl Abort,
    host: &mut AnimHost,
    active: &mut ActiveTree,
    time: u64,
) -> Result<Frame, AllocError>
    requires { active.old ≡ host.old.active }
    ensures host { KeepsCommits host.old host.new }
    ensures active { active.new ≡ active.old }
{
    assert!(rt; host.last_tick() <= time);
    assert!(rt; time <= LAST_TIME);
    host.tick(active.commit(), time)?;
    draw(rt, host, active, time)
}

fn draw(
    rt: &impl Abort,
    host: &AnimHost,
    active: &mut ActiveTree,
    time: u64,
) -> Result<Frame, AllocError>
    requires { IsTime time }
    ensures { active.new ≡ active.old }
{
    expect_locals(rt, active.commit(), host, time);
    let value = |easing: &Easing, p: u32| easing.value(p);
    frame_by(host, active, time, value)
}

fn frame_by<E: EasingFunction + Drop>(
    host: &AnimHost,
    active: &mut ActiveTree,
    time: u64,
    function: E,
) -> Result<Frame, AllocError>
    requires in_time { IsTime time }
    requires locals { LocalTimesFit active.old.tree (shown_in host.now) time }
    requires may_be_called { MayEase (E.asks function) }
    requires exact { Eases (E.answers function) }
    ensures { active.new ≡ active.old }
{
    let evaluator = Evaluator::new(function);
    active.frame(time, host, &evaluator)
}

// Timings are defined for the local times of the models that are shown.
fn expect_locals(rt: &impl Abort, commit: &Commit, host: &AnimHost, time: u64)
    requires { IsTime time }
    ensures { LocalTimesFit commit.now.tree (shown_in host.now) time }
{
    for i in 0..commit.model_count() {
        expect_local(rt, commit, commit.model_at(i), host, time);
    }
}

fn expect_local(rt: &impl Abort, commit: &Commit, model: &ModelSpec, host: &AnimHost, time: u64)
    requires timeline_there { IsTrue (has_timeline commit.now.tree model.now.timeline) }
    requires in_time { IsTime time }
    ensures { IfSome (shown_in host.now model.now.id)
        (λ s. unsigned_abs (local_time commit.now.tree time model.now s) ≤ LARGEST_LOCAL) }
{
    if let Some(shown) = host.shown(model.id()) {
        let local = local_time(rt, commit, model, time, shown);
        assert!(rt; local.unsigned_abs() <= LARGEST_LOCAL);
    }
}

fn local_time(rt: &impl Abort, commit: &Commit, model: &ModelSpec, time: u64, shown: Shown) -> i64
    requires timeline_there { IsTrue (has_timeline commit.now.tree model.now.timeline) }
    requires in_time { IsTime time }
    ensures { result ≡ local_time commit.now.tree time model.now shown }
{
    let timeline = commit.timeline(model.timeline()).unwrap();
    since(rt, timeline.time_of(time), shown.start)
}

fn since(rt: &impl Abort, time: i64, start: i64) -> i64
    requires { unsigned_abs time ≤ LAST_TIME }
    ensures { result ≡ time -ℤ start }
{
    assert!(rt; start.unsigned_abs() <= LAST_TIME);
    time - start
}
