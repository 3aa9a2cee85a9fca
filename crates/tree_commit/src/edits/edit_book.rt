//! The book that edits are checked against.

ghost use Rattle.std.specs.Prelude.{◌≡◌, ℕ, ◌==◌, ◌<◌, ◌≤◌, ◌+◌, [], ◌∷◌, ◌++◌, length, nat_le, nat_eq, false, None, Some, if◌then◌else◌, IfOk, OnOk, OnErr, IsSome};
ghost use Rattle.std.specs.Map.{lookup};
ghost use Rattle.std.specs.Result.{result_err};
ghost use Rattle.anim_names.specs.declared.limit.LimitName.TheVariants.{Elements, Timelines};
ghost use Rattle.keyframe_model.specs.Models.{Spec};
ghost use Rattle.tree_commit.specs.declared.edits.refusal.EditRefusal.TheVariants.{ElementThere, ElementNotThere, ModelUnknown, TimelineThere, Limit};
ghost use Rattle.tree_commit.specs.Edits.{AddModel, OnModels, book_after, book_after_commit, edit_refusal, is_closed, is_in, is_mixed, model_refusal, new_book, parts_of, with_member, without};
ghost use Rattle.tree_commit.specs.Books.{groups_from, HasParts};
ghost use Rattle.tree_commit.specs.Views.{change_of};

use crate::edits::group_shape::GroupShape;
use crate::{Edit, EditRefusal};
use anim_names::limit::{MOST_COMMITS, MOST_ELEMENTS, MOST_MODELS, MOST_TIMELINES};
use anim_names::{ElementId, GroupId, LimitName, ModelId, Property, TimelineId};
use indexmap::{IndexMap, IndexSet};
use keyframe_model::ModelSpec;
use std::alloc::{AllocError, Global};
use std::marker::Model;

/// What edits are checked against: which elements and timelines there are, which ids of models were ever used, what
/// the models of each group have in common, and how many commits there were.
///
/// It depends on the edits and commits alone, and not on what main hears. Each look-up takes the same time, however
/// much there is. Contracts see a `Book`.
pub struct EditBook {
    elements: IndexSet<ElementId>,
    elements_added: u32,
    timelines: IndexSet<TimelineId>,
    models: IndexSet<ModelId>,
    groups: IndexMap<GroupId, GroupShape>,
    commits: u32,
}

impl Drop for EditBook {
    fn drop(self) {
        let EditBook {
            elements,
            elements_added: _,
            timelines,
            models,
            groups,
            commits: _,
        } = self;
        drop(elements);
        drop(timelines);
        drop(models);
        drop(groups);
    }
}

impl Model for EditBook {
    ghost use Rattle.std.specs.Prelude.{◌≤◌};
    ghost use Rattle.anim_names.specs.declared.limit.TheConstants.{MOST_COMMITS, MOST_ELEMENTS};
    ghost use Rattle.tree_commit.specs.Edits.{Book};

    ghost Value = { Book };

    ghost use Rattle.tree_commit.specs.Books.{groups_from};

    ghost view = { λ b. record {
      elements = b.elements.keys;
      elements_added = b.elements_added;
      timelines = b.timelines.keys;
      models = b.models.keys;
      groups = groups_from b.groups.entries;
      commits = b.commits;
    } };

    ghost invariant = { λ b. (b.commits ≤ MOST_COMMITS) × (b.elements_added ≤ MOST_ELEMENTS) };
}

impl EditBook {
    /// The book before any edit, with room for the elements and timelines that a script may add.
    pub fn new(alloc: Global) -> Result<EditBook, AllocError>
        ensures { IfOk result (λ book. book ≡ new_book) }
    {
        let mut book = EditBook::empty(alloc);
        book.elements.reserve(MOST_ELEMENTS as usize)?;
        book.timelines.reserve(MOST_TIMELINES as usize)?;
        Ok(book)
    }

    // The book before any edit, with no room.
    fn empty(alloc: Global) -> EditBook
        ensures { result ≡ new_book }
    {
        EditBook {
            elements: IndexSet::new(alloc),
            elements_added: 0,
            timelines: IndexSet::new(alloc),
            models: IndexSet::new(alloc),
            groups: IndexMap::new(alloc),
            commits: 0,
        }
    }

    /// How many commits there were.
    pub fn commits(&self) -> u32
        ensures value { result ≡ self.now.commits }

        // Of every book: no more commits than may be made.
        ensures within { result ≤ MOST_COMMITS }
    {
        self.commits
    }

    /// How often an element was added, an id that was there before included.
    pub fn elements_added(&self) -> u32
        ensures value { result ≡ self.now.elements_added }

        // Of every book: no more elements than may be added.
        ensures within { result ≤ MOST_ELEMENTS }
    {
        self.elements_added
    }

    /// Whether an edit may be made: why it is refused, the first reason in order.
    #[tactic(auto, unfolding(crate::specs::Edits::edit_refusal))]
    pub fn check(&self, edit: &Edit) -> Result<(), EditRefusal>
        ensures { result_err result ≡ edit_refusal self.now (change_of edit.now) }
    {
        match edit {
            Edit::AddElement { id, .. } => self.check_new_element(*id),
            Edit::RemoveElement { id } => self.check_element(*id),
            Edit::SetOwn { id, .. } => self.check_element(*id),
            Edit::AddTimeline { id, .. } => self.check_new_timeline(*id),
            Edit::AddModel { spec } => self.check_spec(spec),
            Edit::RemoveModel { id } => self.check_known_model(*id),
        }
    }

    /// Whether a model with these parts may be added, without the model: a reader can refuse it before it reads the
    /// model's keys. The start is in microseconds of the timeline.
    pub fn check_model(
        &self,
        id: ModelId,
        group: GroupId,
        element: ElementId,
        timeline: TimelineId,
        start: Option<u64>,
        property: Property,
    ) -> Result<(), EditRefusal>
        ensures value { result_err result ≡ model_refusal self.now id group element timeline start property }

        // So it answers as `check` does of adding any model that has these parts.
        ensures as_check { (model : Spec) → HasParts model id group element timeline start property
            → result_err result ≡ edit_refusal self.now (OnModels (AddModel model)) }
    {
        self.check_parts(id, group, element, timeline, start, property)
    }

    /// Keeps what later edits are checked against of an edit that `check` lets through. Where there is no memory the
    /// book stays as it was.
    #[tactic(auto, unfolding(crate::specs::Edits::edit_refusal, crate::specs::Edits::book_after))]
    pub fn note(&mut self, edit: &Edit) -> Result<(), AllocError>
        requires { edit_refusal self.old (change_of edit.now) ≡ None }
        ensures noted { OnOk result (self.new ≡ book_after self.old (change_of edit.now)) }
        ensures err { OnErr result (self.new ≡ self.old) }
    {
        match edit {
            Edit::AddElement { id, .. } => self.add_element(*id),
            Edit::RemoveElement { id } => {
                self.remove_element(*id);
                Ok(())
            }
            Edit::SetOwn { .. } => Ok(()),
            Edit::AddTimeline { id, .. } => self.add_timeline(*id),
            Edit::AddModel { spec } => self.add_model(spec),
            Edit::RemoveModel { .. } => Ok(()),
        }
    }

    /// Counts a commit: groups that have a model take no more.
    pub fn commit_made(&mut self)
        requires { self.old.commits < MOST_COMMITS }
        ensures { self.new ≡ book_after_commit self.old }
    {
        self.commits += 1;
    }

    // An element that is added is not there, and there were fewer than may be.
    fn check_new_element(&self, id: ElementId) -> Result<(), EditRefusal>
        ensures { result_err result ≡
            (if is_in id self.now.elements then Some ElementThere else
            if nat_le MOST_ELEMENTS self.now.elements_added then Some (Limit Elements) else
            None) }
    {
        if self.elements.contains(&id) {
            Err(EditRefusal::ElementThere)
        } else if self.elements_added >= MOST_ELEMENTS {
            Err(EditRefusal::Limit(LimitName::Elements))
        } else {
            Ok(())
        }
    }

    // An element that is changed or removed is there.
    fn check_element(&self, id: ElementId) -> Result<(), EditRefusal>
        ensures { result_err result ≡ (if is_in id self.now.elements then None else Some ElementNotThere) }
    {
        if self.elements.contains(&id) {
            Ok(())
        } else {
            Err(EditRefusal::ElementNotThere)
        }
    }

    // A timeline that is added is not there, and there are fewer than may be.
    fn check_new_timeline(&self, id: TimelineId) -> Result<(), EditRefusal>
        ensures { result_err result ≡
            (if is_in id self.now.timelines then Some TimelineThere else
            if nat_le MOST_TIMELINES (length self.now.timelines) then Some (Limit Timelines) else
            None) }
    {
        if self.has_timeline(id) {
            Err(EditRefusal::TimelineThere)
        } else if self.timelines.len() >= MOST_TIMELINES as usize {
            Err(EditRefusal::Limit(LimitName::Timelines))
        } else {
            Ok(())
        }
    }

    fn check_spec(&self, spec: &ModelSpec) -> Result<(), EditRefusal>
        ensures { result_err result ≡ edit_refusal self.now (OnModels (AddModel spec.now)) }
    {
        self.check_model(
            spec.id(),
            spec.group(),
            spec.element(),
            spec.timeline(),
            spec.start(),
            spec.property(),
        )
    }

    // A model that is added has an id of its own, a timeline that is there, and goes with its group, to which no
    // commit has come since its first model.
    #[tactic(auto, unfolding(crate::specs::Edits::model_refusal))]
    fn check_parts(
        &self,
        id: ModelId,
        group: GroupId,
        element: ElementId,
        timeline: TimelineId,
        start: Option<u64>,
        property: Property,
    ) -> Result<(), EditRefusal>
        ensures { result_err result ≡ model_refusal self.now id group element timeline start property }
    {
        if self.has_used(id) {
            Err(EditRefusal::ModelIdUsed)
        } else if !self.has_timeline(timeline) {
            Err(EditRefusal::TimelineUnknown)
        } else if self.is_closed(group) {
            Err(EditRefusal::GroupClosed)
        } else if self.is_mixed(group, element, timeline, start, property) {
            Err(EditRefusal::GroupMixed)
        } else if self.model_count() >= MOST_MODELS as usize {
            Err(EditRefusal::Limit(LimitName::Models))
        } else {
            Ok(())
        }
    }

    fn has_used(&self, id: ModelId) -> bool
        ensures { result ≡ is_in id self.now.models }
    {
        self.models.contains(&id)
    }

    fn has_timeline(&self, id: TimelineId) -> bool
        ensures { result ≡ is_in id self.now.timelines }
    {
        self.timelines.contains(&id)
    }

    fn model_count(&self) -> usize
        ensures { result ≡ length self.now.models }
    {
        self.models.len()
    }

    fn is_closed(&self, group: GroupId) -> bool
        ensures { result ≡ is_closed self.now.commits (parts_of self.now group) }
    {
        match self.groups.get(&group) {
            None => false,
            Some(shape) => shape.is_closed(self.commits),
        }
    }

    fn is_mixed(
        &self,
        group: GroupId,
        element: ElementId,
        timeline: TimelineId,
        start: Option<u64>,
        property: Property,
    ) -> bool
        ensures { result ≡ is_mixed element timeline start property (parts_of self.now group) }
    {
        match self.groups.get(&group) {
            None => false,
            Some(shape) => shape.is_mixed(element, timeline, start, property),
        }
    }

    // A model that is removed was added, whether it is still there or not.
    fn check_known_model(&self, id: ModelId) -> Result<(), EditRefusal>
        ensures { result_err result ≡ (if is_in id self.now.models then None else Some ModelUnknown) }
    {
        if self.has_used(id) {
            Ok(())
        } else {
            Err(EditRefusal::ModelUnknown)
        }
    }

    fn add_element(&mut self, id: ElementId) -> Result<(), AllocError>
        requires absent { is_in id self.old.elements ≡ false }
        requires few { self.old.elements_added < MOST_ELEMENTS }
        ensures ok { OnOk result (self.new ≡ record self.old {
          elements = self.old.elements ++ id ∷ [];
          elements_added = self.old.elements_added + 1;
        }) }
        ensures err { OnErr result (self.new ≡ self.old) }
    {
        self.elements.insert(id)?;
        self.elements_added += 1;
        Ok(())
    }

    #[tactic(auto, using(crate::proofs::BookLemmas::removals))]
    fn remove_element(&mut self, id: ElementId)
        ensures { self.new ≡ record self.old { elements = without (λ other. id == other) self.old.elements } }
    {
        self.elements.shift_remove(&id);
    }

    fn add_timeline(&mut self, id: TimelineId) -> Result<(), AllocError>
        requires { is_in id self.old.timelines ≡ false }
        ensures ok { OnOk result (self.new ≡ record self.old { timelines = self.old.timelines ++ id ∷ [] }) }
        ensures err { OnErr result (self.new ≡ self.old) }
    {
        self.timelines.insert(id)?;
        Ok(())
    }

    fn add_model(&mut self, spec: &ModelSpec) -> Result<(), AllocError>
        requires { is_in spec.now.id self.old.models ≡ false }
        ensures ok { OnOk result (self.new ≡ record self.old {
          models = self.old.models ++ spec.now.id ∷ [];
          groups = with_member self.old.commits spec.now self.old.groups;
        }) }
        ensures err { OnErr result (self.new ≡ self.old) }
    {
        self.models.reserve(1)?;
        add_member(&mut self.groups, spec, self.commits)?;
        self.models.insert(spec.id()).unwrap();
        Ok(())
    }
}

// Takes a model into its group, after this many commits: a new group, or one that is there.
fn add_member(
    groups: &mut IndexMap<GroupId, GroupShape>,
    spec: &ModelSpec,
    commits: u32,
) -> Result<(), AllocError>
    ensures ok { OnOk result (groups_from groups.new.entries ≡ with_member commits spec.now (groups_from groups.old.entries)) }
    ensures err { OnErr result (groups_from groups.new.entries ≡ groups_from groups.old.entries) }
{
    if groups.contains_key(&spec.group()) {
        add_further(groups, spec)
    } else {
        add_first(groups, spec, commits)
    }
}

// A model whose group is there changes that group alone.
fn add_further(
    groups: &mut IndexMap<GroupId, GroupShape>,
    spec: &ModelSpec,
) -> Result<(), AllocError>
    requires { IsSome (lookup (nat_eq spec.now.group) groups.old.entries) }
    ensures ok { OnOk result ((commits : ℕ) → groups_from groups.new.entries ≡ with_member commits spec.now (groups_from groups.old.entries)) }
    ensures err { OnErr result (groups_from groups.new.entries ≡ groups_from groups.old.entries) }
{
    let shape = groups.get_mut(&spec.group()).unwrap();
    shape.add_property(spec.property())?;
    Ok(())
}

// A model whose group is not there makes it, last.
fn add_first(
    groups: &mut IndexMap<GroupId, GroupShape>,
    spec: &ModelSpec,
    commits: u32,
) -> Result<(), AllocError>
    requires { lookup (nat_eq spec.now.group) groups.old.entries ≡ None }
    ensures ok { OnOk result (groups_from groups.new.entries ≡ with_member commits spec.now (groups_from groups.old.entries)) }
    ensures err { OnErr result (groups.new.entries ≡ groups.old.entries) }
{
    let shape = GroupShape::of_first(*groups.allocator(), spec, commits)?;
    groups.insert(spec.group(), shape)?;
    Ok(())
}
