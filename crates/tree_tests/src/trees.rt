//! The compositor's two trees.

ghost use Rattle.easing_fixed.specs.Evaluators.{MayEase, Eases};

use crate::samples;
use active_tree::ActiveTree;
use anim_names::{ElementId, ModelId};
use anim_timeline::LAST_TIME;
use easing_fixed::{Easing, EasingFunction, Evaluator};
use element_samples::{Frame, StartTable};
use pending_tree::PendingTree;
use std::process::Abort;
use std::test::Fail;
use transform_ops::TransformOp;
use tree_commit::Shown;

#[test]
fn a_pending_commit_stands_until_it_is_taken(rt: HostRuntime) -> Result<(), Fail> {
    let mut pending = PendingTree::new();
    assert!(rt; pending.commit().is_none());
    assert!(rt; pending.take().is_none());
    pending.put(samples::bare_commit(rt.alloc(), 3)?);
    let seen = pending.commit().ok_or("no commit")?;
    assert!(rt; seen.number() == 3);
    let taken = pending.take().ok_or("no commit")?;
    assert!(rt; taken.number() == 3);
    assert!(rt; pending.commit().is_none());
    Ok(())
}

// A table in which no model has started.
struct NothingStarted;

impl StartTable for NothingStarted {
    ghost use Rattle.std.specs.Prelude.{None};

    ghost starts = { λ _ _. None };

    fn shown(&self, _model: ModelId) -> Option<Shown> {
        None
    }
}

// The frame of a tick, where no model has started.
fn still_frame<E: EasingFunction + Drop>(
    rt: &impl Abort,
    active: &mut ActiveTree,
    time: u64,
    function: E,
) -> Result<Frame, Fail>
    requires may_be_called { MayEase (E.asks function) }
    requires exact { Eases (E.answers function) }
{
    assert!(rt; time <= LAST_TIME);
    let evaluator = Evaluator::new(function);
    Ok(active.frame(time, &NothingStarted, &evaluator)?)
}

#[test]
fn at_first_a_frame_shows_nothing(rt: HostRuntime) -> Result<(), Fail> {
    let mut active = ActiveTree::new(rt.alloc())?;
    assert!(rt; active.commit().number() == 0);
    let value = |easing: &Easing, p: u32| easing.value(p);
    let frame = still_frame(&rt, &mut active, 16_000, value)?;
    assert!(rt; frame.time() == 16_000);
    assert!(rt; frame.commit() == 0);
    assert!(rt; frame.row_count() == 0);
    Ok(())
}

#[test]
#[tactic(auto, using(active_tree::proofs::AgreeLemmas::agree_from_empty))]
fn a_frame_shows_what_is_each_elements_own(rt: HostRuntime) -> Result<(), Fail> {
    let mut active = ActiveTree::new(rt.alloc())?;
    active.set(samples::small_commit(rt.alloc(), 1)?);
    let value = |easing: &Easing, p: u32| easing.quick_value(p);
    let frame = still_frame(&rt, &mut active, 16_000, value)?;
    expect_own_row(&rt, &frame);
    Ok(())
}

// Element 7, half opaque and moved, in commit 1.
fn expect_own_row(rt: &impl Abort, frame: &Frame) {
    assert!(rt; frame.commit() == 1);
    assert!(rt; frame.row_count() == 1);
    let row = frame.row(0);
    assert!(rt; row.element == ElementId(7));
    assert!(rt; row.shown.opacity.get() == 500_000);
    assert!(rt; row.shown.transform.len() == 1);
    assert!(rt; row.shown.transform.op(0) == TransformOp::Translate { x: 1, y: 2, z: 3 });
}
