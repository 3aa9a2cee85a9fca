//! The first two commits of a script, and the pull of the second.

ghost use Rattle.std.specs.Prelude.{◌≡◌, ◌≤◌, All, None, IfOk, IsTrue, OnOk, OnErr, length};
ghost use Rattle.anim_host.specs.Hosting.{hosting_after_push};
ghost use Rattle.run_rules.specs.Runs.{model_of_event};
ghost use Rattle.tree_commit.specs.Trees.{has_model};
ghost use Rattle.tree_commit.specs.Views.{change_of};
ghost use Rattle.host_tests.specs.Steps.{OnlyElementsAreNew, adds_elements_alone};

use crate::steps::{expect_groups, make_edits, next_commit};
use anim_host::AnimHost;
use anim_names::{AnimEvent, ModelId};
use main_tree::MainTree;
use run_rules::MainStep;
use script_reader::read_script;
use std::alloc::{AllocError, Global};
use std::process::Abort;
use std::sync::Arc;
use std::test::Fail;
use tree_commit::{Commit, Edit};

// ---- commits

/// The first two commits of a script in which nothing but elements is new in the second.
pub fn first_two(
    rt: &impl Abort,
    alloc: Global,
    text: &str,
) -> Result<(Arc<Commit>, Arc<Commit>), Fail>
    ensures { IfOk result (λ commits. OnlyElementsAreNew commits.0.value.tree commits.1.value.tree) }
{
    let script = read_script(alloc, text.as_bytes())?;
    let mut main = MainTree::new(alloc)?;
    commit_twice(rt, &mut main, script.main())
}

// Commits before the first commit step of these, and once more behind all of them.
fn commit_twice(
    rt: &impl Abort,
    main: &mut MainTree,
    steps: &[MainStep],
) -> Result<(Arc<Commit>, Arc<Commit>), Fail>
    ensures { IfOk result (λ commits. OnlyElementsAreNew commits.0.value.tree commits.1.value.tree) }
{
    let before = steps
        .iter()
        .take_while(|step| !matches!(step, MainStep::Commit))
        .count();
    assert!(rt; before <= steps.len());
    make_edits(rt, main, &steps[..before]);
    let first = next_commit(rt, main)?;
    make_small_edits(rt, main, &steps[before..]);
    let second = next_commit(rt, main)?;
    Ok((first, second))
}

// Makes the edits among these steps. None of them adds a model or a timeline.
#[tactic(auto, using(crate::proofs::NextCommits::nothing_new))]
fn make_small_edits(rt: &impl Abort, main: &mut MainTree, steps: &[MainStep])
    ensures { OnlyElementsAreNew main.old.tree main.new.tree }
{
    for step in steps {
        make_small_step(rt, main, step);
    }
}

// Makes the step, where it is an edit.
#[tactic(auto, using(crate::proofs::NextCommits::nothing_new, crate::proofs::NextCommits::new_after))]
fn make_small_step(rt: &impl Abort, main: &mut MainTree, step: &MainStep)
    ensures { OnlyElementsAreNew main.old.tree main.new.tree }
{
    if let MainStep::Edit(edit) = step {
        assert!(rt; adds_elements_alone(edit));
        let made = main.edit(edit);
        assert!(rt; made.is_ok());
    }
}

fn adds_elements_alone(edit: &Edit) -> bool
    ensures { result ≡ adds_elements_alone (change_of edit.now) }
{
    !matches!(edit, Edit::AddTimeline { .. } | Edit::AddModel { .. })
}

// ---- the pull

/// Pulls a commit in which nothing but elements is new. The news were never cleared.
pub fn push_next(
    rt: &impl Abort,
    host: &mut AnimHost,
    active: &Commit,
    commit: &Arc<Commit>,
) -> Result<(), AllocError>
    requires active { active.now ≡ host.old.active }
    requires pending { host.old.pending ≡ None }
    requires few { OnlyElementsAreNew active.now.tree commit.now.value.tree }
    requires told { host.old.cleared ≡ 0 }
    requires models { length active.now.tree.models ≤ host.old.models }
    ensures ok { OnOk result (host.new ≡ hosting_after_push host.old commit.now.value) }
    ensures err { OnErr result (host.new ≡ host.old) }
{
    let _kept = active.model_count();
    expect_groups(rt, commit);
    expect_known(rt, active, host.news());
    host.push_commit(commit)
}

// The commit has the models of these events.
fn expect_known(rt: &impl Abort, commit: &Commit, events: &[AnimEvent])
    ensures { All (λ event. IsTrue (has_model commit.now.tree (model_of_event event))) events.now }
{
    assert!(rt; are_known(commit, events));
}

fn are_known(commit: &Commit, events: &[AnimEvent]) -> bool
    ensures { IsTrue result → All (λ event. IsTrue (has_model commit.now.tree (model_of_event event))) events.now }
{
    events.iter().all(|event| commit.has_model(model_of(event)))
}

fn model_of(event: &AnimEvent) -> ModelId
    ensures { result ≡ model_of_event event.now }
{
    match event {
        AnimEvent::Started { model, .. } => *model,
        AnimEvent::Finished { model, .. } => *model,
        AnimEvent::Aborted { model, .. } => *model,
    }
}
