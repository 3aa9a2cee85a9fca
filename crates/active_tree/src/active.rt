//! The tree from which the compositor draws: its commit may be replaced, and a frame is asked of it. What starts,
//! finishes or is aborted it reads off a table of starts.

ghost use Rattle.std.specs.Prelude.{◌≡◌, IfOk, map};
ghost use Rattle.anim_timeline.specs.Timelines.{IsTime};
ghost use Rattle.run_rules.specs.Follows.{TreesAgree};
ghost use Rattle.run_rules.specs.Frames.{LocalTimesFit, frame_by, row_of};
ghost use Rattle.tree_commit.specs.Trees.{empty_commit};
ghost use Rattle.element_samples.specs.Views.{drawn_row_of};
ghost use Rattle.active_tree.specs.ElementModels.{AreListsOf};

use crate::element_models::ElementModels;
use crate::sampled_commit::SampledCommit;
use crate::sampling::sample_row;
use easing_fixed::{EasingFunction, Evaluator};
use element_samples::{Frame, FrameRow, StartTable};
use std::alloc::{AllocError, Global};
use std::marker::Model;
use std::sync::Arc;
use tree_commit::Commit;

/// The commit that is drawn.
///
/// The compositor has one active tree, on its own thread, and there is always a commit in it. It draws frames and does
/// not know which models start, finish or are aborted: it asks a table of starts. A frame costs its rows and one look at
/// each model that animates one of its elements. A model is evaluated until its iterations are over; from then on its
/// last sample is used. The first frame of a commit also sorts the commit's models by element. A contract sees the
/// active commit.
pub struct ActiveTree {
    alloc: Global,
    sampled: SampledCommit,
    /// The models of the commit by element; none until the first frame after it was set.
    models: Option<ElementModels>,
}

impl Drop for ActiveTree {
    fn drop(self) {
        let ActiveTree {
            alloc: _,
            sampled: _sampled,
            models: _models,
        } = self;
    }
}

impl Model for ActiveTree {
    ghost use Rattle.std.specs.Prelude.{IfSome};
    ghost use Rattle.tree_commit.specs.Trees.{Committed};
    ghost use Rattle.active_tree.specs.ElementModels.{AreListsOf};

    ghost Value = { Committed };

    ghost view = { λ t. t.sampled };

    ghost invariant = { λ t. IfSome t.models (λ models. AreListsOf t.sampled.tree.models models) };
}

impl ActiveTree {
    /// An active tree with commit 0, which has nothing in it.
    pub fn new(alloc: Global) -> Result<ActiveTree, AllocError>
        ensures { IfOk result (λ tree. tree ≡ empty_commit) }
    {
        Ok(ActiveTree {
            alloc,
            sampled: SampledCommit::empty(alloc)?,
            models: None,
        })
    }

    /// Makes this the active commit, which must agree with the one before: a model of both is one model, and a timeline
    /// of both has one zero. The samples of models that it does not have are dropped. It takes no memory.
    pub fn set(&mut self, commit: Arc<Commit>)
        requires { TreesAgree self.old.tree commit.value.tree }
        ensures { self.new ≡ commit.value }
    {
        self.models = None;
        self.sampled.set(commit);
    }

    /// The active commit.
    pub fn commit(&self) -> &Arc<Commit>
        ensures { result.now.value ≡ self.now }
    {
        self.sampled.commit()
    }

    /// The frame of a tick, in microseconds, by what the table shows of the commit's models: a row for each element, in
    /// the commit's order. Earlier frames make no difference.
    pub fn frame<S: StartTable, E: EasingFunction>(
        &mut self,
        time: u64,
        starts: &S,
        evaluator: &Evaluator<E>,
    ) -> Result<Frame, AllocError>
        requires in_time { IsTime time }
        requires locals { LocalTimesFit self.old.tree (S.starts starts.now) time }
        ensures frame { IfOk result (λ frame. frame ≡ frame_by self.old (S.starts starts.now) time) }
        ensures same { self.new ≡ self.old }
    {
        let models = self.take_models()?;
        let rows = sample_all(
            self.alloc,
            &mut self.sampled,
            &models,
            time,
            starts,
            evaluator,
        )?;
        self.models = Some(models);
        Ok(Frame::from_rows(time, self.sampled.commit().number(), rows))
    }

    // The models of the commit by element: those that an earlier frame left here, else made now.
    fn take_models(&mut self) -> Result<ElementModels, AllocError>
        ensures lists { IfOk result (λ models. AreListsOf self.old.tree.models models) }
        ensures same { self.new ≡ self.old }
    {
        match self.models.take() {
            Some(models) => Ok(models),
            None => ElementModels::of(self.alloc, self.sampled.commit()),
        }
    }
}

// What each element of the commit shows at a tick.
fn sample_all<S: StartTable, E: EasingFunction>(
    alloc: Global,
    sampled: &mut SampledCommit,
    models: &ElementModels,
    time: u64,
    starts: &S,
    evaluator: &Evaluator<E>,
) -> Result<Vec<FrameRow>, AllocError>
    requires lists { AreListsOf sampled.old.tree.models models.now }
    requires in_time { IsTime time }
    requires locals { LocalTimesFit sampled.old.tree (S.starts starts.now) time }
    ensures rows { IfOk result (λ rows.
        map drawn_row_of rows.items ≡ map (row_of sampled.old.tree (S.starts starts.now) time) sampled.old.tree.elements) }
    ensures same { sampled.new ≡ sampled.old }
{
    let count = sampled.commit().element_count();
    let mut rows = Vec::with_capacity(alloc, count)?;
    for index in 0..count {
        rows.push(sample_row(sampled, models, index, time, starts, evaluator)?)?;
    }
    Ok(rows)
}
