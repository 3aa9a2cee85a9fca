//! The host's data after each single mark: commits, marks, and the tables of rows that agree with both. Which mark
//! comes next is decided by its callers.

ghost use Rattle.std.specs.Prelude.{◌≡◌, ◌≢◌, ◌++◌, not, ◌≤◌, ◌<◌, ◌+◌, ℕ, [], ◌∷◌, length, List, map, nat_eq, unsigned_abs, IfSome, true, false, None, Some, IfOk, OnOk, OnErr, option_map, if◌then◌else◌};
ghost use Rattle.std.specs.List.{IsDistinct, list_any};
ghost use Rattle.anim_timeline.specs.declared.TheConstants.{LAST_TIME};
ghost use Rattle.anim_host.specs.Fits.{AreSettled, IsThereIfUnfinished, MarksFitModels, begun_of};
ghost use Rattle.element_anims.specs.Rows.{is_blocked_by};
ghost use Rattle.element_anims.specs.Elements.{IsUnblocked};
ghost use Rattle.host_tables.specs.Elements.{has_in};
ghost use Rattle.anim_names.specs.declared.lane.Tree as lane;
ghost use Rattle.element_anims.specs.Elements.{is_present};
ghost use Rattle.run_rules.specs.declared.mark.Mark.TheVariants.{OfModel};
ghost use Rattle.run_rules.specs.declared.mark.ModelMark.TheVariants.{Started};
ghost use Rattle.host_tables.specs.Groups.{group_at, group_row_of};
ghost use Rattle.host_tables.specs.Rows.{marked_at, row_at, says_over};
ghost use Rattle.anim_host.specs.Standing.{IsOver, Stood, pending_has_group, with_new};
ghost use Rattle.host_tables.specs.States.{FinishesStarted, as_marked, is_among, is_found_over, row_for, shown_at, state_of};
ghost use Rattle.keyframe_effect.specs.declared.state.RunState.TheVariants.{Waiting};
ghost use Rattle.keyframe_effect.specs.States as state;
ghost use Rattle.keyframe_model.specs.Models.{Spec, property_of};
ghost use Rattle.run_rules.specs.declared.mark.Mark as declared;
ghost use Rattle.run_rules.specs.Follows.{Follows};
ghost use Rattle.anim_names.specs.Lists.{IsAmong};
ghost use Rattle.run_rules.specs.Frames.{shown_by};
ghost use Rattle.run_rules.specs.Marks.{blocks, is_abort, is_end, is_ended, is_group_unfinished, is_over, is_ready, is_unfinished, is_started, start_of, starts_in};
ghost use Rattle.tree_commit.specs.Trees.{empty_commit, has_element, has_model};

use anim_names::{ElementId, GroupId, ModelId, Property, Tree};
use element_anims::ElementAnims;
use host_tables::elements::{self, announce, block, swap};
use host_tables::{GroupTable, MarkList, RowTable, advanced, shown};
use keyframe_effect::{GroupRow, RunState};
use keyframe_model::ModelSpec;
use run_rules::{Begun, ModelMark};
use std::alloc::{AllocError, Global};
use std::marker::Model;
use std::sync::Arc;
use tree_commit::{Commit, Shown};

/// The active and the pending commit, all marks, the time of the last tick, and the tables that say of each model of
/// these commits how far it has come, and of each group of the active one how many of its models wait and run.
///
/// It does not know which marks come when. That the tables stand for the commits and the marks is its invariant: it
/// holds after every single mark. A contract sees the commits, the list of marks and the last tick; it does not see
/// which models were found done.
pub(crate) struct Standing {
    active: Arc<Commit>,
    pending: Option<Arc<Commit>>,
    marks: MarkList,
    rows: RowTable,
    groups: GroupTable,
    elements: ElementAnims,
    last_tick: u64,
}

impl Drop for Standing {
    fn drop(self) {
        let Standing {
            active: _active,
            pending: _pending,
            marks: _marks,
            rows: _rows,
            groups: _groups,
            elements: _elements,
            last_tick: _,
        } = self;
    }
}

impl Model for Standing {
    ghost use Rattle.std.specs.Prelude.{option_map};
    ghost use Rattle.anim_host.specs.Standing.{StandsFor, Stood};

    ghost Value = { Stood };

    ghost view = { λ s. record {
      active = s.active.value;
      pending = option_map (λ commit. commit.value) s.pending;
      list = s.marks;
      last_tick = s.last_tick;
    } };

    ghost invariant = { λ s.
        StandsFor s.rows s.groups s.elements s.active.value (option_map (λ commit. commit.value) s.pending) s.marks.marks s.last_tick };
}

impl Standing {
    /// Commit 0 is active, and there was no mark and no tick.
    pub(crate) fn new(alloc: Global) -> Result<Standing, AllocError>
        ensures { IfOk result (λ stood. stood
            ≡ record { active = empty_commit; pending = None; list = record { marks = []; cleared = 0; room = 0 }; last_tick = 0 }) }
    {
        Ok(Standing {
            active: Commit::empty(alloc)?,
            pending: None,
            marks: MarkList::new(alloc),
            rows: RowTable::new(alloc),
            groups: GroupTable::new(alloc),
            elements: ElementAnims::new(alloc)?,
            last_tick: 0,
        })
    }

    /// The list of marks.
    pub(crate) fn marks(&self) -> &MarkList
        ensures { result.now ≡ self.now.list }
    {
        &self.marks
    }

    /// The time of the last tick, in microseconds; 0 before any.
    pub(crate) fn last_tick(&self) -> u64
        ensures { result ≡ self.now.last_tick }
    {
        self.last_tick
    }

    /// How far a model of the active commit has come.
    pub(crate) fn state(&self, id: ModelId) -> RunState
        requires { has_model self.now.active.tree id ≡ true }
        ensures runs { state.is_unfinished result ≡ is_unfinished self.now.list.marks id }
        ensures ended { state.is_ended result ≡ is_ended self.now.list.marks id }
        ensures shown { shown_at result ≡ shown_by self.now.list.marks id }
        ensures within { IfSome (shown_at result) (λ s. unsigned_abs s.start ≤ LAST_TIME) }
        ensures over { is_found_over result ≡ true
            → IsOver self.now.active.tree self.now.list.marks self.now.last_tick id }
    {
        let _ = self.marks.marks();
        self.state_now(id)
    }

    // What the marks say of a model of the active commit, and whether it was found done.
    fn state_now(&self, id: ModelId) -> RunState
        requires { has_model self.now.active.tree id ≡ true }
        ensures state { as_marked result ≡ state_of self.now.list.marks id }
        ensures finishes { FinishesStarted self.now.list.marks }
        ensures over { is_found_over result ≡ true
            → IsOver self.now.active.tree self.now.list.marks self.now.last_tick id }
    {
        match self.rows.row(id) {
            Some(row) => row.state,
            None => RunState::Waiting,
        }
    }

    /// What is shown of a model: nothing of one that is not in the active commit.
    pub(crate) fn shown(&self, id: ModelId) -> Option<Shown>
        ensures { result ≡ (if has_model self.now.active.tree id then shown_by self.now.list.marks id else None) }
    {
        match self.rows.row(id) {
            Some(row) if row.in_active => shown(row.state),
            _ => None,
        }
    }

    /// Whether the commit in this tree has the element.
    pub(crate) fn present(&self, tree: Tree, element: ElementId) -> bool
        ensures { result ≡ has_in tree self.now.active self.now.pending element }
    {
        self.elements.present(tree, element)
    }

    /// The group that blocks the property of the element, if one does.
    pub(crate) fn blocked_by(&self, element: ElementId, property: Property) -> Option<GroupId>
        ensures { (group : ℕ) → is_blocked_by group result ≡ blocks self.now.list.marks group element property }
    {
        self.elements.blocked_by(element, property)
    }

    /// The row of a group, where the active commit has a model of it.
    pub(crate) fn group_row(&self, group: GroupId) -> Option<GroupRow>
        ensures { result ≡ group_row_of self.now.active.tree.models self.now.list.marks group }
    {
        self.groups.row(group)
    }

    /// Whether the group may start. `pending_has` says whether a pending commit has a model of it.
    pub(crate) fn is_ready(&self, group: GroupId, pending_has: bool) -> bool
        requires pending { pending_has ≡ pending_has_group self.now.pending group }
        requires settled { AreSettled self.now.active.tree.models self.now.list.marks }
        ensures { result ≡ is_ready self.now.active.tree self.now.pending self.now.list.marks group }
    {
        match self.groups.row(group) {
            None => false,
            Some(row) => row.ready(&self.elements, pending_has),
        }
    }

    /// Does nothing. What is so of every value of the type, its clauses say of this one.
    pub(crate) fn vouch(&self)
        ensures differ { IsDistinct nat_eq (map (λ model. model.id) self.now.active.tree.models) }
        ensures fits { MarksFitModels self.now.active.tree.models self.now.list.marks }
        ensures follows { IfSome self.now.pending (λ commit. Follows self.now.active.tree commit.tree self.now.list.marks) }
    {
        let _ = self.active.model_count();
    }

    /// Makes room for this many further marks. Where there is no memory, all stays as it was.
    pub(crate) fn reserve(&mut self, count: usize) -> Result<(), AllocError>
        ensures room { OnOk result (length self.new.list.marks + count ≤ self.new.list.room) }
        ensures same { self.new ≡ record self.old { list = record self.old.list { room = self.new.list.room } } }
        ensures never_less { self.old.list.room ≤ self.new.list.room }
        ensures err { OnErr result (self.new ≡ self.old) }
    {
        self.marks.reserve(count)
    }

    /// The tick of this time is the last one.
    pub(crate) fn set_last_tick(&mut self, time: u64)
        requires { self.old.last_tick ≤ time }
        ensures { self.new ≡ record self.old { last_tick = time } }
    {
        self.last_tick = time;
    }

    /// A running model of the active commit was found done. It is not asked again, since it stays so.
    pub(crate) fn mark_done(&mut self, model: &ModelSpec)
        requires there { IsAmong model.now self.old.active.tree.models }
        requires over { is_over self.old.active.tree self.old.last_tick model.now (start_of self.old.list.marks model.now.id) ≡ true }
        ensures { self.new ≡ self.old }
    {
        let _ = self.active.model_count();
        self.rows.mark_done(model.id());
    }

    /// A model of the active commit starts: its mark goes behind the others, and from then on its group blocks its
    /// property. No other group does, and its own group has started nothing that does not run.
    pub(crate) fn start(&mut self, model: &ModelSpec, at: u64, start: i64)
        requires room { length self.old.list.marks < self.old.list.room }
        requires within { unsigned_abs start ≤ LAST_TIME }
        requires there { IsAmong model.now self.old.active.tree.models }
        requires present { has_element self.old.active.tree model.now.element ≡ true }
        requires alive { is_ended self.old.list.marks model.now.id ≡ false }
        requires whole { list_any (starts_in model.now.group) self.old.list.marks ≡ is_group_unfinished self.old.list.marks model.now.group }
        requires free { (other : ℕ) → other ≢ model.now.group
            → blocks self.old.list.marks other model.now.element (property_of model.now) ≡ false }
        ensures { self.new ≡ with_new self.old (OfModel model.now.id (Started (begun_of model.now at start)) ∷ []) }
    {
        let _ = self.active.model_count();
        let id = model.id();
        let what = ModelMark::Started(begun(model, at, start));
        let order = self.marks.next_order();
        let before = self.rows.state(id);
        self.rows.advance(id, &what, order);
        let after = advanced(before, &what, order);
        self.groups.advance(model.group(), before, after);
        block(
            &mut self.elements,
            model.element(),
            model.property(),
            model.group(),
        );
        self.marks.push(id, &what);
    }

    /// A model of the active commit ends: its mark goes behind the others. Where it is the last of its group that runs,
    /// the group blocks nothing any more.
    pub(crate) fn end(&mut self, model: &ModelSpec, what: &ModelMark, is_last: bool)
        requires room { length self.old.list.marks < self.old.list.room }
        requires there { IsAmong model.now self.old.active.tree.models }
        requires ends { is_end what.now ≡ true }
        requires started { is_abort what.now ≡ false → is_started self.old.list.marks model.now.id ≡ true }
        requires last { is_group_unfinished (self.old.list.marks ++ OfModel model.now.id what.now ∷ []) model.now.group ≡ not is_last }
        ensures { self.new ≡ with_new self.old (OfModel model.now.id what.now ∷ []) }
    {
        let _ = self.active.model_count();
        let id = model.id();
        let order = self.marks.next_order();
        let before = self.rows.state(id);
        self.rows.advance(id, what, order);
        let after = advanced(before, what, order);
        self.groups.advance(model.group(), before, after);
        unblock_if(is_last, &mut self.elements, model.element(), model.group());
        self.marks.push(id, what);
    }

    /// The news are cleared: all marks were told.
    pub(crate) fn clear_news(&mut self)
        ensures { self.new ≡ record self.old { list = record self.old.list { cleared = length self.old.list.marks } } }
    {
        self.marks.clear_news();
    }

    /// Makes this the pending commit, with room for a mark for each model of the active one. The host shares it.
    pub(crate) fn push_commit(&mut self, commit: &Arc<Commit>) -> Result<(), AllocError>
        requires free { self.old.pending ≡ None }
        requires follows { Follows self.old.active.tree commit.now.value.tree self.old.list.marks }
        ensures ok { OnOk result (self.new ≡ record self.old {
          pending = Some commit.now.value;
          list = record self.old.list { room = self.new.list.room };
        }) }
        ensures room { OnOk result (length self.new.list.marks + length self.new.active.tree.models ≤ self.new.list.room) }
        ensures err { OnErr result (self.new ≡ self.old) }
    {
        let commit = commit.clone()?;
        self.rows.reserve(commit.model_count())?;
        self.groups.reserve(commit.model_count())?;
        elements::reserve(&mut self.elements, &commit)?;
        self.marks.reserve(self.active.model_count())?;
        join_pending(&mut self.rows, &commit);
        announce(&mut self.elements, &commit);
        self.pending = Some(commit);
        Ok(())
    }

    /// Makes the pending commit the active one, which has each model that runs. It takes no memory.
    pub(crate) fn take_over(&mut self, commit: &Commit)
        requires pending { self.old.pending ≡ Some commit.now }
        requires unfinished { (mark : declared.Mark) → IsAmong mark self.old.list.marks
            → IsThereIfUnfinished commit.now.tree.models self.old.list.marks mark }
        ensures { self.new ≡ record self.old { active = commit.now; pending = None } }
    {
        let _ = self.active.model_count();
        if let Some(pending) = self.pending.take() {
            leave_active(&mut self.rows, &self.active);
            enter_active(&mut self.rows, &pending);
            count_groups(&mut self.groups, &self.rows, &pending);
            swap(&mut self.elements, &self.active, &pending);
            self.active = pending;
        }
    }
}

// How the model starts.
fn begun(model: &ModelSpec, at: u64, start: i64) -> Begun
    ensures { result ≡ begun_of model.now at start }
{
    Begun {
        group: model.group(),
        element: model.element(),
        property: model.property(),
        at,
        start,
    }
}

// The group blocks nothing of the element any more, where the test says so.
fn unblock_if(test: bool, elements: &mut ElementAnims, element: ElementId, group: GroupId)
    ensures freed { test ≡ true → IsUnblocked element group elements.old elements.new }
    ensures kept { test ≡ false → elements.new ≡ elements.old }
    ensures presence { (t : lane.Tree) (e : ℕ) → is_present elements.new t e ≡ is_present elements.old t e }
{
    if test {
        elements.unblock_all(element, group);
    }
}

// Each model of the commit is in the pending one from now on.
fn join_pending(rows: &mut RowTable, commit: &Commit)
    requires room { length commit.now.tree.models ≤ rows.old.room }
    ensures rows { (active : List Spec) (marks : List declared.Mark)
        → ((model : Spec) → IsAmong model commit.now.tree.models → is_among active model.id ≡ false → state_of marks model.id ≡ Waiting)
        → ((id : ℕ) → marked_at rows.old id ≡ row_for active [] marks id)
        → (id : ℕ) → marked_at rows.new id ≡ row_for active commit.now.tree.models marks id }
    ensures over { (id : ℕ) → says_over (row_at rows.new id) ≡ true → says_over (row_at rows.old id) ≡ true }
{
    for index in 0..commit.model_count() {
        rows.join_pending(commit.model_at(index).id());
    }
}

// No model of the commit is in the active one from now on.
fn leave_active(rows: &mut RowTable, commit: &Commit)
    ensures rows { (pending : List Spec) (marks : List declared.Mark)
        → ((id : ℕ) → marked_at rows.old id ≡ row_for commit.now.tree.models pending marks id)
        → (id : ℕ) → marked_at rows.new id ≡ row_for [] pending marks id }
    ensures over { (id : ℕ) → says_over (row_at rows.new id) ≡ true → says_over (row_at rows.old id) ≡ true }
{
    for index in 0..commit.model_count() {
        rows.leave_active(commit.model_at(index).id());
    }
}

// Each model of the commit is in the active one from now on, and not in the pending one.
fn enter_active(rows: &mut RowTable, commit: &Commit)
    ensures rows { (marks : List declared.Mark)
        → ((id : ℕ) → marked_at rows.old id ≡ row_for [] commit.now.tree.models marks id)
        → (id : ℕ) → marked_at rows.new id ≡ row_for commit.now.tree.models [] marks id }
    ensures over { (id : ℕ) → says_over (row_at rows.new id) ≡ true → says_over (row_at rows.old id) ≡ true }
{
    for index in 0..commit.model_count() {
        rows.enter_active(commit.model_at(index).id());
    }
}

// The rows of the groups are those of the commit, by the rows of its models.
fn count_groups(groups: &mut GroupTable, rows: &RowTable, commit: &Commit)
    requires room { length commit.now.tree.models ≤ groups.old.room }
    ensures { (marks : List declared.Mark)
        → FinishesStarted marks
        → ((id : ℕ) → marked_at rows.now id ≡ row_for commit.now.tree.models [] marks id)
        → (group : ℕ) → group_at groups.new group ≡ group_row_of commit.now.tree.models marks group }
{
    groups.clear();
    for index in 0..commit.model_count() {
        let model = commit.model_at(index);
        groups.join(model, rows.state(model.id()));
    }
}
