//! Main's tree: what each edit, each commit step and each event that main hears does to it. An edit that its book
//! refuses changes nothing.

ghost use Rattle.std.specs.Prelude.{◌≡◌, ◌==◌, ◌<◌, ◌≤◌, false, None, map, option_map, IfOk, OnOk, OnErr};
ghost use Rattle.std.specs.Result.{result_err};
ghost use Rattle.keyframe_model.specs.Views.{shared_value_of};
ghost use Rattle.tree_commit.specs.Trees.{has_model, model_with, next_commit, set_own};
ghost use Rattle.run_rules.specs.Runs.{model_of_event, retires};
ghost use Rattle.tree_commit.specs.Edits.{AddElement, AddModel, AddTimeline, OnElements, OnModels, OnTimelines, RemoveElement, RemoveModel, SetOwn, edit_refusal, finds_its_target, refusal_in, with_look, without};
ghost use Rattle.tree_commit.specs.Tables.{element_of};
ghost use Rattle.tree_commit.specs.Views.{change_of, look_of};

use anim_delegate::{Delegate, Policy, Verdict, VerdictFunction};
use anim_names::limit::MOST_COMMITS;
use anim_names::{AnimEvent, ElementId, ModelId, TimelineId};
use anim_timeline::Timeline;
use indexmap::IndexMap;
use keyframe_model::{ModelSpec, SharedValue};
use std::alloc::{AllocError, Global};
use std::marker::Model;
use std::sync::Arc;
use tree_commit::{Base, Commit, Edit, EditBook, EditFault};

/// Main's tree: elements, keyframe models and timelines, each in order of insertion, and the book that edits of them
/// are checked against.
///
/// There is one, and it lives on main's thread. What the compositor sees of it are commits. It does not keep which
/// events were heard.
pub struct MainTree {
    book: EditBook,
    elements: IndexMap<ElementId, Base>,
    models: IndexMap<ModelId, Arc<ModelSpec>>,
    timelines: IndexMap<TimelineId, Timeline>,
}

impl Drop for MainTree {
    fn drop(self) {
        let MainTree {
            book: _book,
            elements: _elements,
            models: _models,
            timelines: _timelines,
        } = self;
    }
}

impl Model for MainTree {
    ghost use Rattle.main_tree.specs.EditedTrees.{EditedTree};

    ghost Value = { EditedTree };

    ghost use Rattle.tree_commit.specs.Tables.{StandUnderOwnIds};
    ghost use Rattle.main_tree.specs.EditedTrees.{edited_tables, GoesWithBook};

    ghost view = { λ t. edited_tables t.book t.elements.entries t.models.entries t.timelines.entries };

    ghost invariant = { λ t.
        StandUnderOwnIds t.models.entries
        × GoesWithBook (edited_tables t.book t.elements.entries t.models.entries t.timelines.entries) };
}

impl MainTree {
    ghost use Rattle.main_tree.specs.EditedTrees.{after_commit, after_edit, after_hearing, new_tree, GoesWithBook};

    /// The tree before any edit, which has nothing in it.
    pub fn new(alloc: Global) -> Result<MainTree, AllocError>
        ensures { IfOk result (λ tree. tree ≡ new_tree) }
    {
        Ok(MainTree {
            book: EditBook::new(alloc)?,
            elements: IndexMap::new(alloc),
            models: IndexMap::new(alloc),
            timelines: IndexMap::new(alloc),
        })
    }

    /// How many commits there were.
    pub fn commits(&self) -> u32
        ensures value { result ≡ self.now.book.commits }

        // Of every tree: no more commits than may be made, and the tree and its book go together.
        ensures within { result ≤ MOST_COMMITS }
        ensures together { GoesWithBook self.now }
    {
        self.book.commits()
    }

    /// Makes an edit, and says whether it found what it is about: only a model that is to be removed may be gone.
    pub fn edit(&mut self, edit: &Edit) -> Result<bool, EditFault>
        ensures made { OnOk result (self.new ≡ after_edit self.old (change_of edit.now)) }
        ensures found { IfOk result (λ found. found ≡ finds_its_target self.old.tree (change_of edit.now)) }

        // A model that is gone is removed once more: nothing changes.
        ensures lost { result ≡ Ok false → self.new ≡ self.old }

        // It is refused exactly as a book refuses it that has the same edits and commits.
        ensures refused { refusal_in (result_err result) ≡ edit_refusal self.old.book (change_of edit.now) }
        ensures err { OnErr result (self.new ≡ self.old) }
    {
        self.book.check(edit)?;
        Ok(self.make(edit)?)
    }

    /// The tree as it is, under the next number.
    pub fn commit(&mut self) -> Result<Arc<Commit>, AllocError>
        requires { self.old.book.commits < MOST_COMMITS }
        ensures given { IfOk result (λ commit. commit.value ≡ next_commit self.old.book.commits self.old.tree) }
        ensures counted { OnOk result (self.new ≡ after_commit self.old) }
        ensures err { OnErr result (self.new ≡ self.old) }
    {
        let commit = Commit::build(
            *self.elements.allocator(),
            self.book.commits() + 1,
            &self.elements,
            &self.models,
            &self.timelines,
        )?;
        self.book.commit_made();
        Ok(commit)
    }

    /// Hears an event: where the delegate retires the event's model and the model is still there, it leaves the tree.
    /// True exactly where a model was retired. The book stays as it is, and nothing here takes memory.
    pub fn hear<F: VerdictFunction>(&mut self, event: &AnimEvent, delegate: &Delegate<F>) -> bool
        ensures heard { self.new ≡ after_hearing self.old event.now }
        ensures retired { result ≡ retires self.old.tree event.now }
    {
        let id = model_of(event);
        match self.policy_of(id) {
            None => false,
            Some(policy) => match delegate.ask(policy, event) {
                Verdict::Keep => false,
                Verdict::Retire => self.remove_model(id),
            },
        }
    }

    // The policy of a model, where it is there.
    fn policy_of(&self, id: ModelId) -> Option<Policy>
        ensures policy { result ≡ option_map (λ model. model.policy) (model_with self.now.tree id) }
        ensures together { GoesWithBook self.now }
    {
        match self.models.get(&id) {
            None => None,
            Some(model) => Some(model.policy()),
        }
    }

    // Makes an edit that is not refused.
    fn make(&mut self, edit: &Edit) -> Result<bool, AllocError>
        requires { edit_refusal self.old.book (change_of edit.now) ≡ None }
        ensures made { OnOk result (self.new ≡ after_edit self.old (change_of edit.now)) }
        ensures found { IfOk result (λ found. found ≡ finds_its_target self.old.tree (change_of edit.now)) }
        ensures err { OnErr result (self.new ≡ self.old) }
    {
        match edit {
            Edit::AddElement { id, base } => {
                self.add_element(edit, *id, base)?;
                Ok(true)
            }
            Edit::RemoveElement { id } => {
                self.remove_element(edit, *id)?;
                Ok(true)
            }
            Edit::SetOwn { id, value } => {
                self.set_own(*id, value.clone()?);
                Ok(true)
            }
            Edit::AddTimeline { id, timeline } => {
                self.add_timeline(edit, *id, *timeline)?;
                Ok(true)
            }
            Edit::AddModel { spec } => {
                self.add_model(edit, spec)?;
                Ok(true)
            }
            Edit::RemoveModel { id } => Ok(self.remove_model(*id)),
        }
    }

    fn add_element(&mut self, edit: &Edit, id: ElementId, base: &Base) -> Result<(), AllocError>
        requires is_this { change_of edit.now ≡ OnElements (AddElement id (look_of base.now)) }
        requires allowed { edit_refusal self.old.book (change_of edit.now) ≡ None }
        ensures made { OnOk result (self.new ≡ after_edit self.old (change_of edit.now)) }
        ensures err { OnErr result (self.new ≡ self.old) }
    {
        let base = base.clone()?;
        self.elements.reserve(1)?;
        self.book.note(edit)?;
        self.elements.insert(id, base).unwrap();
        Ok(())
    }

    fn remove_element(&mut self, edit: &Edit, id: ElementId) -> Result<(), AllocError>
        requires is_this { change_of edit.now ≡ OnElements (RemoveElement id) }
        requires allowed { edit_refusal self.old.book (change_of edit.now) ≡ None }
        ensures made { OnOk result (self.new ≡ after_edit self.old (change_of edit.now)) }
        ensures err { OnErr result (self.new ≡ self.old) }
    {
        self.book.note(edit)?;
        take_out(&mut self.elements, id);
        Ok(())
    }

    fn set_own(&mut self, id: ElementId, value: SharedValue)
        requires { edit_refusal self.old.book (OnElements (SetOwn id (shared_value_of value))) ≡ None }
        ensures { self.new ≡ after_edit self.old (OnElements (SetOwn id (shared_value_of value))) }
    {
        change_own(&mut self.elements, id, value);
    }

    fn add_timeline(
        &mut self,
        edit: &Edit,
        id: TimelineId,
        timeline: Timeline,
    ) -> Result<(), AllocError>
        requires is_this { change_of edit.now ≡ OnTimelines (AddTimeline id timeline) }
        requires allowed { edit_refusal self.old.book (change_of edit.now) ≡ None }
        ensures made { OnOk result (self.new ≡ after_edit self.old (change_of edit.now)) }
        ensures err { OnErr result (self.new ≡ self.old) }
    {
        self.timelines.reserve(1)?;
        self.book.note(edit)?;
        self.timelines.insert(id, timeline).unwrap();
        Ok(())
    }

    fn add_model(&mut self, edit: &Edit, spec: &Arc<ModelSpec>) -> Result<(), AllocError>
        requires is_this { change_of edit.now ≡ OnModels (AddModel spec.now.value) }
        requires allowed { edit_refusal self.old.book (change_of edit.now) ≡ None }
        ensures made { OnOk result (self.new ≡ after_edit self.old (change_of edit.now)) }
        ensures err { OnErr result (self.new ≡ self.old) }
    {
        let spec = spec.clone()?;
        self.models.reserve(1)?;
        self.book.note(edit)?;
        self.models.insert(spec.id(), spec).unwrap();
        Ok(())
    }

    // Removes a model, and says whether it was there.
    fn remove_model(&mut self, id: ModelId) -> bool
        requires { edit_refusal self.old.book (OnModels (RemoveModel id)) ≡ None }
        ensures made { self.new ≡ after_edit self.old (OnModels (RemoveModel id)) }
        ensures found { result ≡ has_model self.old.tree id }
    {
        self.models.shift_remove(&id).is_some()
    }
}

// The model that an event is about.
fn model_of(event: &AnimEvent) -> ModelId
    ensures { result ≡ model_of_event event.now }
{
    match event {
        AnimEvent::Started { model, .. } => *model,
        AnimEvent::Finished { model, .. } => *model,
        AnimEvent::Aborted { model, .. } => *model,
    }
}

// Removes an element and closes the gap.
fn take_out(elements: &mut IndexMap<ElementId, Base>, id: ElementId)
    ensures { map element_of elements.new.entries
        ≡ without (λ element. id == element.id) (map element_of elements.old.entries) }
{
    elements.shift_remove(&id);
}

// Gives an element another value of its own, where it is there.
#[tactic(auto, using(crate::proofs::TableEdits::looks))]
fn change_own(elements: &mut IndexMap<ElementId, Base>, id: ElementId, value: SharedValue)
    ensures { map element_of elements.new.entries
        ≡ with_look id (λ look. set_own look (shared_value_of value)) (map element_of elements.old.entries) }
{
    if let Some(base) = elements.get_mut(&id) {
        base.set_own(value);
    }
}
