//! Main's tree as it was at a commit step. What is read off whole commits is defined above.

ghost use Rattle.std.specs.Prelude.{◌≡◌, ◌==◌, nat_eq, ◌<◌, ◌≤◌, ◌-ℤ◌, unsigned_abs, IsTrue, IfOk, length, map, find, position, slice_get, Some, is_some, option_map};
ghost use Rattle.std.specs.List.{IsDistinct};
ghost use Rattle.std.specs.Option.{option_copied};
ghost use Rattle.anim_timeline.specs.Timelines.{IsTime};
ghost use Rattle.micro_time.specs.declared.TheConstants.{LARGEST_LOCAL};
ghost use Rattle.tree_commit.specs.Trees.{Committed, empty_commit, has_element, has_model, local_time};

use crate::{Base, Shown};
use anim_names::{ElementId, ModelId, TimelineId};
use anim_timeline::Timeline;
use indexmap::IndexMap;
use keyframe_model::ModelSpec;
use std::alloc::{AllocError, Global};
use std::marker::Model;
use std::sync::Arc;

/// Main's tree as it was at one commit step. It never changes, so both threads may hold it.
///
/// Lists and models are shared with main's tree and with other commits; a commit has only tables of its own. A
/// contract sees its number and the tree as lists.
pub struct Commit {
    number: u32,
    elements: IndexMap<ElementId, Base>,
    models: IndexMap<ModelId, Arc<ModelSpec>>,
    timelines: IndexMap<TimelineId, Timeline>,
}

impl Drop for Commit {
    fn drop(self) {
        let Commit {
            number: _,
            elements,
            models,
            timelines,
        } = self;
        drop(elements);
        drop(models);
        drop(timelines);
    }
}

impl Model for Commit {
    ghost use Rattle.tree_commit.specs.Trees.{Committed};

    ghost Value = { Committed };

    ghost use Rattle.tree_commit.specs.Tables.{tree_of, StandUnderOwnIds, HasAllTimelines};

    ghost view = { λ c. record {
      number = c.number;
      tree = tree_of c.elements.entries c.models.entries c.timelines.entries;
    } };

    ghost invariant = { λ c.
        StandUnderOwnIds c.models.entries
        × HasAllTimelines (tree_of c.elements.entries c.models.entries c.timelines.entries) };
}

impl Commit {
    ghost use Rattle.tree_commit.specs.Tables.{tree_of, has_timeline, StandUnderOwnIds, HasAllTimelines};
    ghost use Rattle.tree_commit.specs.Views.{look_of};

    /// Commit 0, which has nothing in it.
    pub fn empty(alloc: Global) -> Result<Arc<Commit>, AllocError>
        ensures { IfOk result (λ made. made.value ≡ empty_commit) }
    {
        let commit = Commit {
            number: 0,
            elements: IndexMap::new(alloc),
            models: IndexMap::new(alloc),
            timelines: IndexMap::new(alloc),
        };
        Ok(Arc::new(alloc, commit)?)
    }

    /// The commit of this number, of the tree that these tables hold.
    pub fn build(
        alloc: Global,
        number: u32,
        elements: &IndexMap<ElementId, Base>,
        models: &IndexMap<ModelId, Arc<ModelSpec>>,
        timelines: &IndexMap<TimelineId, Timeline>,
    ) -> Result<Arc<Commit>, AllocError>
        requires own_ids { StandUnderOwnIds models.now.entries }
        requires timelines_there { HasAllTimelines (tree_of elements.now.entries models.now.entries timelines.now.entries) }
        ensures { IfOk result (λ made.
            made.value
            ≡ record { number = number; tree = tree_of elements.now.entries models.now.entries timelines.now.entries }) }
    {
        let ((elements, models), timelines) = both(
            both(elements.clone(), models.clone()),
            timelines.clone(),
        )?;
        let commit = Commit {
            number,
            elements,
            models,
            timelines,
        };
        Ok(Arc::new(alloc, commit)?)
    }

    /// Which commit step it was, from 1 on; 0 for the commit that is active before any other.
    pub fn number(&self) -> u32
        ensures { result ≡ self.now.number }
    {
        self.number
    }

    /// How many elements it has.
    pub fn element_count(&self) -> usize
        ensures count { result ≡ length self.now.tree.elements }

        // Of every commit: no two elements have one id.
        ensures differ { IsDistinct nat_eq (map (λ element. element.id) self.now.tree.elements) }
    {
        self.elements.len()
    }

    /// The element at an index, from 0, with what it shows where nothing animates it.
    pub fn element_at(&self, i: usize) -> (ElementId, &Base)
        requires { i < length self.now.tree.elements }
        ensures { slice_get self.now.tree.elements i ≡ Some (record { id = result.0; look = look_of result.1.now }) }
    {
        let (id, base) = self.elements.get_index(i).unwrap();
        (*id, base)
    }

    /// Whether the element is in it.
    pub fn has_element(&self, id: ElementId) -> bool
        ensures { result ≡ has_element self.now.tree id }
    {
        self.elements.contains_key(&id)
    }

    /// How many keyframe models it has.
    pub fn model_count(&self) -> usize
        ensures count { result ≡ length self.now.tree.models }

        // Of every commit: no two models have one id, and the timeline of each model is there.
        ensures differ { IsDistinct nat_eq (map (λ model. model.id) self.now.tree.models) }
        ensures timelines_there { HasAllTimelines self.now.tree }
    {
        self.models.len()
    }

    /// The model at an index, from 0.
    pub fn model_at(&self, i: usize) -> &Arc<ModelSpec>
        requires { i < length self.now.tree.models }
        ensures { slice_get self.now.tree.models i ≡ Some result.now.value }
    {
        let (_, model) = self.models.get_index(i).unwrap();
        model
    }

    /// Whether the model is in it.
    pub fn has_model(&self, id: ModelId) -> bool
        ensures { result ≡ has_model self.now.tree id }
    {
        self.models.contains_key(&id)
    }

    /// The index of the model. There is none exactly where the model is not in it.
    pub fn place_of(&self, id: ModelId) -> Option<usize>
        ensures index { result ≡ position (λ model. id == model.id) self.now.tree.models }
        ensures found { is_some result ≡ has_model self.now.tree id }
    {
        self.models.get_index_of(&id)
    }

    /// The timeline of this id. There is none exactly where it is not in the commit.
    pub fn timeline(&self, id: TimelineId) -> Option<&Timeline>
        ensures origin { option_copied result
            ≡ option_map (λ clock. clock.origin) (find (λ clock. id == clock.id) self.now.tree.timelines) }
        ensures found { is_some result ≡ has_timeline self.now.tree id }
    {
        self.timelines.get(&id)
    }

    /// The local time of a model at a tick, in microseconds, by what is shown of it: how long after its start the model's
    /// timeline is. It is negative before the start.
    pub fn local_time(&self, model: &ModelSpec, time: u64, shown: Shown) -> i64
        requires timeline_there { IsTrue (has_timeline self.now.tree model.now.timeline) }
        requires in_time { IsTime time }
        requires fits { unsigned_abs (local_time self.now.tree time model.now shown) ≤ LARGEST_LOCAL }
        ensures { result ≡ local_time self.now.tree time model.now shown }
    {
        let timeline = self.timeline(model.timeline()).unwrap();
        since(timeline.time_of(time), shown.start)
    }

    /// What the commit's tables take their memory from.
    pub fn allocator(&self) -> Global {
        *self.elements.allocator()
    }
}

// How long after a start a time of its timeline is; negative before it.
fn since(time: i64, start: i64) -> i64
    requires { unsigned_abs (time -ℤ start) ≤ LARGEST_LOCAL }
    ensures { result ≡ time -ℤ start }
{
    time - start
}

// Both, or none where there was no memory for one.
fn both<A: Drop, B: Drop>(
    first: Result<A, AllocError>,
    second: Result<B, AllocError>,
) -> Result<(A, B), AllocError>
    ensures { IfOk result (λ both. (first ≡ Ok both.0) × (second ≡ Ok both.1)) }
{
    Ok((first?, second?))
}
