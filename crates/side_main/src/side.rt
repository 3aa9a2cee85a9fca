//! Main's state in a run, with the calls of its steps: it edits, commits, drains and hears. In which order is up to
//! who runs the lanes.

ghost use Rattle.std.specs.Prelude.{◌≡◌, ◌+◌, ◌<◌, ◌≤◌, ◌^◌, IfOk};
ghost use Rattle.anim_names.specs.declared.limit.TheConstants.{MOST_STEPS};
ghost use Rattle.frame_exchange.specs.Sides.{new_main};

use crate::hearing::hear_all;
use anim_delegate::{Delegate, VerdictFunction};
use anim_names::AnimEvent;
use frame_exchange::{Board, MainSteps};
use main_tree::MainTree;
use std::alloc::{AllocError, Global};
use std::marker::Model;
use std::sync::Arc;
use tree_commit::{Commit, Edit, EditFault};

/// Main's tree, the events that it has drained, and how many steps were made.
///
/// There is one for a run, and it lives on main's thread. It keeps neither the steps that are left nor which events it
/// has heard, and it does not keep the board. The delegate is asked and never kept.
pub struct MainSide<'d, F: VerdictFunction> {
    tree: MainTree,
    delegate: &'d Delegate<F>,
    batch: Vec<AnimEvent>,
    is_built: bool,
    heard: u32,
    steps: u32,
    room: u32,
}

impl<'d, F: VerdictFunction> Drop for MainSide<'d, F> {
    fn drop(self) {
        let MainSide {
            tree: _tree,
            delegate: _,
            batch: _batch,
            is_built: _,
            heard: _,
            steps: _,
            room: _,
        } = self;
    }
}

impl<'d, F: VerdictFunction> Model for MainSide<'d, F> {
    ghost use Rattle.std.specs.Prelude.{◌≡◌, ◌+◌, ◌<◌, ◌≤◌, ◌^◌, true, [], length, vec_capacity};
    ghost use Rattle.frame_exchange.specs.Sides.{MainState};
    ghost use Rattle.side_main.specs.Building.{built_of};

    ghost Value = { MainState };

    ghost view = { λ m. record {
      tree = m.tree.tree;
      book = m.tree.book;
      heard = m.heard;
      built = built_of m.is_built m.tree;
      batch = m.batch.items;
      steps = m.steps;
      room = m.room;
    } };

    ghost invariant = { λ m.
        (m.room ≤ vec_capacity m.batch)
        × (m.heard + length m.batch.items < 2 ^ 32)
        × (m.is_built ≡ true → m.batch.items ≡ []) };
}

impl<'d, F: VerdictFunction> MainSide<'d, F> {
    /// Main's side before any step. A drain has room for this many events, and takes no memory.
    pub fn new(
        alloc: Global,
        events: u32,
        delegate: &'d Delegate<F>,
    ) -> Result<MainSide<'d, F>, AllocError>
        ensures { IfOk result (λ side. side ≡ new_main events) }
    {
        let batch = Vec::with_capacity(alloc, events as usize)?;
        let tree = MainTree::new(alloc)?;
        Ok(MainSide {
            tree,
            delegate,
            batch,
            is_built: false,
            heard: 0,
            steps: 0,
            room: events,
        })
    }
}

impl<'d, F: VerdictFunction> MainSteps for MainSide<'d, F> {
    ghost state = { λ s. s };

    fn edit(&mut self, edit: &Edit) -> Result<bool, EditFault> {
        let found = self.tree.edit(edit)?;
        self.steps = next(self.steps);
        Ok(found)
    }

    fn build(&mut self) -> Result<Arc<Commit>, AllocError> {
        let commit = self.tree.commit()?;
        self.is_built = true;
        Ok(commit)
    }

    fn publish(&mut self, board: &mut Board, commit: Arc<Commit>) {
        self.steps = next(self.steps);
        board.publish(self.steps, commit);
        self.is_built = false;
    }

    fn drain(&mut self, board: &mut Board) -> usize {
        self.steps = next(self.steps);
        board.drain(self.steps, &mut self.batch)
    }

    fn drain_last(&mut self, board: &Board) -> usize {
        board.drain_last(&mut self.batch)
    }

    fn hear(&mut self) -> usize {
        let retired = hear_all(&mut self.tree, &self.batch, self.delegate);
        self.heard = heard_with(self.heard, self.batch.len());
        self.batch.clear();
        retired
    }

    fn heard(&self) -> usize {
        self.heard as usize
    }
}

// The number of the step behind this one.
fn next(steps: u32) -> u32
    requires { steps < MOST_STEPS }
    ensures { result ≡ steps + 1 }
{
    steps + 1
}

// How many events are heard with these.
fn heard_with(heard: u32, events: usize) -> u32
    requires { heard + events < 2 ^ 32 }
    ensures { result ≡ heard + events }
{
    heard + events as u32
}
