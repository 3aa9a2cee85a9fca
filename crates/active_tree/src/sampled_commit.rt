//! The drawn commit with the samples of its models whose iterations are over. A sample serves all later frames, until
//! a commit without its model is taken.

ghost use Rattle.std.specs.Prelude.{◌≡◌, ◌≤◌, ◌&&◌, nat_le, unsigned_abs, IfOk, IsTrue, option_map};
ghost use Rattle.anim_timeline.specs.Timelines.{IsTime};
ghost use Rattle.keyframe_model.specs.Models.{model_value};
ghost use Rattle.micro_time.specs.declared.TheConstants.{LARGEST_LOCAL};
ghost use Rattle.anim_names.specs.Lists.{IsAmong};
ghost use Rattle.run_rules.specs.Follows.{TreesAgree};
ghost use Rattle.tree_commit.specs.Tables.{has_timeline};
ghost use Rattle.tree_commit.specs.Trees.{empty_commit, has_model, local_time};
ghost use Rattle.keyframe_model.specs.Views.{shared_value_of};
ghost use Rattle.active_tree.specs.Kept.{IsKeptOf, is_shown};

use anim_names::ModelId;
use easing_fixed::{EasingFunction, Evaluator};
use indexmap::IndexMap;
use keyframe_model::{ModelSpec, SharedValue};
use std::alloc::{AllocError, Global};
use std::marker::Model;
use std::sync::Arc;
use tree_commit::{Commit, Shown};

/// The commit that is drawn, with the samples that are kept of its models.
///
/// A model whose iterations are over gives one value, or none, from then on. So its sample is kept, and the model is not
/// evaluated any more. A contract sees the commit alone: that each kept sample is right is the invariant.
pub(crate) struct SampledCommit {
    alloc: Global,
    commit: Arc<Commit>,
    kept: IndexMap<ModelId, Kept>,
}

/// What a model gives from a tick on. No value is kept too.
#[derive(Drop)]
struct Kept {
    /// What was shown of it as it was sampled.
    shown: Shown,
    /// The tick from which on the sample is right, in microseconds.
    since: u64,
    sample: Option<SharedValue>,
}

impl Drop for SampledCommit {
    fn drop(self) {
        let SampledCommit {
            alloc: _,
            commit: _commit,
            kept: _kept,
        } = self;
    }
}

impl Model for Kept {
    ghost use Rattle.std.specs.Prelude.{option_map};
    ghost use Rattle.active_tree.specs.Kept.{KeptSample};
    ghost use Rattle.keyframe_model.specs.Views.{shared_value_of};

    ghost Value = { KeptSample };

    ghost view = { λ k. record { shown = k.shown; since = k.since; value = option_map shared_value_of k.sample } };
}

impl Model for SampledCommit {
    ghost use Rattle.tree_commit.specs.Trees.{Committed};
    ghost use Rattle.active_tree.specs.Kept.{AreKeptOf};

    ghost Value = { Committed };

    ghost view = { λ c. c.commit.value };

    ghost invariant = { λ c. AreKeptOf c.commit.value.tree c.kept.entries };
}

impl Kept {
    // Whether the sample is the model's at the tick, where this is shown of the model.
    fn is_right(&self, shown: Shown, time: u64) -> bool
        ensures { result ≡ (is_shown self.now.shown shown && nat_le self.now.since time) }
    {
        is_shown(self.shown, shown) && self.since <= time
    }

    // The sample again, with the same list.
    fn sample(&self) -> Result<Option<SharedValue>, AllocError>
        ensures { IfOk result (λ sample. option_map shared_value_of sample ≡ self.now.value) }
    {
        shared(&self.sample)
    }
}

impl SampledCommit {
    /// Commit 0, which has nothing in it.
    pub(crate) fn empty(alloc: Global) -> Result<SampledCommit, AllocError>
        ensures { IfOk result (λ sampled. sampled ≡ empty_commit) }
    {
        Ok(SampledCommit {
            alloc,
            commit: Commit::empty(alloc)?,
            kept: IndexMap::new(alloc),
        })
    }

    /// The commit.
    pub(crate) fn commit(&self) -> &Arc<Commit>
        ensures { result.now.value ≡ self.now }
    {
        &self.commit
    }

    /// Takes this commit in place of the one before. The samples of models that it does not have are dropped, the others
    /// are kept. It takes no memory.
    pub(crate) fn set(&mut self, commit: Arc<Commit>)
        requires { TreesAgree self.old.tree commit.value.tree }
        ensures { self.new ≡ commit.value }
    {
        let _ = (self.commit.model_count(), commit.model_count());
        self.kept.retain(
            |id: &ModelId, kept: &mut Kept| -> bool
                ensures { (result ≡ has_model commit.value.tree id.now) × (kept.new ≡ kept.old) }
            { commit.has_model(*id) },
        );
        self.commit = commit;
    }

    /// The value at a tick, in microseconds, of a model of which this is shown; none where it gives none. It is the kept sample where one is right, else the model is evaluated.
    pub(crate) fn sample<E: EasingFunction>(
        &mut self,
        model: &ModelSpec,
        shown: Shown,
        time: u64,
        evaluator: &Evaluator<E>,
    ) -> Result<Option<SharedValue>, AllocError>
        requires there { IsAmong model.now self.old.tree.models }
        requires timeline_there { IsTrue (has_timeline self.old.tree model.now.timeline) }
        requires in_time { IsTime time }
        requires local { unsigned_abs (local_time self.old.tree time model.now shown) ≤ LARGEST_LOCAL }
        ensures value { IfOk result (λ sample.
            option_map shared_value_of sample ≡ model_value model.now (local_time self.old.tree time model.now shown)) }
        ensures same { self.new ≡ self.old }
    {
        match self.kept.get(&model.id()) {
            Some(kept) if kept.is_right(shown, time) => kept.sample(),
            _ => self.evaluate(model, shown, time, evaluator),
        }
    }

    // The value at the tick. Where the model's iterations are over it is kept.
    fn evaluate<E: EasingFunction>(
        &mut self,
        model: &ModelSpec,
        shown: Shown,
        time: u64,
        evaluator: &Evaluator<E>,
    ) -> Result<Option<SharedValue>, AllocError>
        requires there { IsAmong model.now self.old.tree.models }
        requires timeline_there { IsTrue (has_timeline self.old.tree model.now.timeline) }
        requires in_time { IsTime time }
        requires local { unsigned_abs (local_time self.old.tree time model.now shown) ≤ LARGEST_LOCAL }
        ensures value { IfOk result (λ sample.
            option_map shared_value_of sample ≡ model_value model.now (local_time self.old.tree time model.now shown)) }
        ensures same { self.new ≡ self.old }
    {
        let local = self.commit.local_time(model, time, shown);
        let sample = SharedValue::at(self.alloc, model, local, evaluator)?;
        self.keep_if_over(model, shown, time, local, &sample)?;
        Ok(sample)
    }

    // Keeps what the model gives from this tick on, where its iterations are over at its local time.
    fn keep_if_over(
        &mut self,
        model: &ModelSpec,
        shown: Shown,
        time: u64,
        local: i64,
        sample: &Option<SharedValue>,
    ) -> Result<(), AllocError>
        requires there { IsAmong model.now self.old.tree.models }
        requires local { local ≡ local_time self.old.tree time model.now shown }
        requires within { unsigned_abs local ≤ LARGEST_LOCAL }
        requires value { option_map shared_value_of sample.now ≡ model_value model.now local }
        ensures { self.new ≡ self.old }
    {
        let _ = self.commit.model_count();
        if model.is_done(local) {
            self.keep(model.id(), shown, time, sample)?;
        }
        Ok(())
    }

    // Keeps what the model of this id gives from this tick on.
    fn keep(
        &mut self,
        id: ModelId,
        shown: Shown,
        since: u64,
        sample: &Option<SharedValue>,
    ) -> Result<(), AllocError>
        requires { IsKeptOf self.old.tree id (record { shown = shown; since = since; value = option_map shared_value_of sample.now }) }
        ensures { self.new ≡ self.old }
    {
        let sample = shared(sample)?;
        let kept = Kept {
            shown,
            since,
            sample,
        };
        self.kept.insert(id, kept)?;
        Ok(())
    }
}

// The same sample again, with the same list.
fn shared(sample: &Option<SharedValue>) -> Result<Option<SharedValue>, AllocError>
    ensures { IfOk result (λ same. option_map shared_value_of same ≡ option_map shared_value_of sample.now) }
{
    match sample {
        None => Ok(None),
        Some(sample) => Ok(Some(sample.clone()?)),
    }
}

// Whether the same is shown.
fn is_shown(one: Shown, other: Shown) -> bool
    ensures { result ≡ is_shown one other }
{
    one.start == other.start && one.order == other.order
}
