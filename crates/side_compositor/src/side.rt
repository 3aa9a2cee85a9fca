//! The compositor's state in a run, with the calls of its steps: it pulls, activates, ticks, draws and sends. In
//! which order is up to who runs the lanes.

ghost use Rattle.std.specs.Prelude.{◌≡◌, ◌+◌, ◌<◌, ◌≤◌, None, Some, IfOk, option_map, is_some};
ghost use Rattle.anim_host.specs.declared.TheConstants.{MOST_HOSTED};
ghost use Rattle.anim_host.specs.Hosting.{hosting_after_activation};
ghost use Rattle.anim_timeline.specs.Timelines.{IsTime};
ghost use Rattle.frame_exchange.specs.declared.board.PendingSlot.{PendingSlot};
ghost use Rattle.frame_exchange.specs.Sides.{new_compositor, slot_of};
ghost use Rattle.run_rules.specs.Frames.{LocalTimesFit, frame_at, shown_by};

use active_tree::ActiveTree;
use anim_host::AnimHost;
use easing_fixed::{EasingFunction, Evaluator};
use element_samples::Frame;
use frame_exchange::{Board, CompositorSteps, PendingSlot};
use pending_tree::PendingTree;
use std::alloc::{AllocError, Global};
use std::marker::Model;
use std::sync::Arc;
use tree_commit::Commit;

/// All that the compositor has of a run: the host of its animations, its two trees, and the commit that it has pulled.
///
/// There is one, on the compositor's thread. It does not know the script, the word and the order of its steps. A
/// contract sees a `CompositorState`.
pub struct CompositorSide<'e, E: EasingFunction> {
    host: AnimHost,
    active: ActiveTree,
    pending: PendingTree,
    pulled: Option<Arc<Commit>>,
    steps: u32,
    evaluator: &'e Evaluator<E>,
}

impl<'e, E: EasingFunction> Drop for CompositorSide<'e, E> {
    fn drop(self) {
        let CompositorSide {
            host: _host,
            active: _active,
            pending: _pending,
            pulled: _pulled,
            steps: _,
            evaluator: _,
        } = self;
    }
}

impl<'e, E: EasingFunction> Model for CompositorSide<'e, E> {
    ghost use Rattle.std.specs.Prelude.{option_map};
    ghost use Rattle.frame_exchange.specs.Sides.{CompositorState};
    ghost use Rattle.side_compositor.specs.Keeping.{IsOneSide};

    ghost Value = { CompositorState };

    ghost view = { λ s. record {
      active = s.host.active;
      pending = s.host.pending;
      pulled = option_map (λ commit. commit.value) s.pulled;
      marks = s.host.marks;
      sent = s.host.cleared;
      last_tick = s.host.last_tick;
      steps = s.steps;
      models = s.host.models;
    } };

    ghost invariant = { λ s. IsOneSide s.host s.active s.pending (option_map (λ commit. commit.value) s.pulled) };
}

impl<'e, E: EasingFunction> CompositorSide<'e, E> {
    /// The compositor before its first step, for this many keyframe models, with room for two marks for each.
    pub fn new(
        alloc: Global,
        models: u32,
        evaluator: &'e Evaluator<E>,
    ) -> Result<CompositorSide<'e, E>, AllocError>
        requires { models ≤ MOST_HOSTED }
        ensures { IfOk result (λ side. side ≡ new_compositor models) }
    {
        Ok(CompositorSide {
            host: AnimHost::new(alloc, models)?,
            active: ActiveTree::new(alloc)?,
            pending: PendingTree::new(),
            pulled: None,
            steps: 0,
            evaluator,
        })
    }
}

impl<'e, E: EasingFunction> CompositorSteps for CompositorSide<'e, E> {
    ghost state = { λ s. s };

    fn pull(&mut self, board: &mut Board) -> bool {
        self.steps += 1;
        self.pulled = board.pull(self.steps, slot(&self.pending));
        self.pulled.is_some()
    }

    fn place(&mut self) -> Result<(), AllocError> {
        if let Some(commit) = &self.pulled {
            self.host.push_commit(commit)?;
        }
        if let Some(commit) = self.pulled.take() {
            self.pending.put(commit);
        }
        Ok(())
    }

    fn activate(&mut self) -> Option<u32> {
        self.steps += 1;
        let commit = self.pending.take()?;
        let number = commit.number();
        make_active(&mut self.host, &mut self.active, commit);
        Some(number)
    }

    fn tick(&mut self, time: u64) -> Result<Frame, AllocError> {
        self.host.tick(self.active.commit(), time)?;
        let frame = draw(&self.host, &mut self.active, time, self.evaluator)?;
        self.steps += 1;
        Ok(frame)
    }

    fn has_news(&self) -> bool {
        !self.host.news().is_empty()
    }

    fn send(&mut self, board: &mut Board) {
        board.send(self.steps, self.host.news());
        self.host.clear_news();
    }
}

// What a pull is told of the pending tree.
fn slot(pending: &PendingTree) -> PendingSlot
    ensures { result ≡ slot_of pending.now }
{
    match pending.commit() {
        None => PendingSlot::Free,
        Some(_) => PendingSlot::Taken,
    }
}

// Makes the commit that was pending the active one, in the host and in the tree.
fn make_active(host: &mut AnimHost, active: &mut ActiveTree, commit: Arc<Commit>)
    requires active { active.old ≡ host.old.active }
    requires pending { host.old.pending ≡ Some commit.value }
    ensures host { host.new ≡ hosting_after_activation host.old commit.value }
    ensures active { active.new ≡ commit.value }
{
    host.activate(active.commit(), &commit);
    active.set(commit);
}

// The frame of a tick whose marks are made.
fn draw<E: EasingFunction>(
    host: &AnimHost,
    active: &mut ActiveTree,
    time: u64,
    evaluator: &Evaluator<E>,
) -> Result<Frame, AllocError>
    requires active { active.old ≡ host.now.active }
    requires in_time { IsTime time }
    requires locals { LocalTimesFit host.now.active.tree (shown_by host.now.marks) time }
    ensures frame { IfOk result (λ frame. frame ≡ frame_at host.now.active host.now.marks time) }
    ensures same { active.new ≡ active.old }
{
    active.frame(time, host, evaluator)
}
