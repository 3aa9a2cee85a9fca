//! The row of a group: how many of its models wait and run, which properties they animate, and whether the group may
//! start by the table of elements.

ghost use Rattle.std.specs.Prelude.{◌≡◌, ◌+◌, ◌≤◌, ◌<◌};
ghost use Rattle.keyframe_effect.specs.Groups.{CanMove, first_row, moved, moved_count, row_with, one_if};
ghost use Rattle.keyframe_effect.specs.Ready.{is_blocked_for, is_ready, is_some_blocked, is_there};

use crate::RunState;
use anim_names::{ElementId, GroupId, PROPERTIES, PerProperty, Property, Tree};
use element_anims::ElementAnims;
use keyframe_model::ModelSpec;

/// A group of the active commit with what a tick asks of it, so that no tick looks through its models.
#[derive(Clone, Copy, PartialEq, Eq)]
pub struct GroupRow {
    pub group: GroupId,
    /// The element of all its models.
    pub element: ElementId,
    /// How many of its models in the active commit have neither started nor ended. A group starts as a whole, so that
    /// between two steps models wait only where none has started.
    pub waiting: usize,
    /// How many of them have started and not ended.
    pub unfinished: usize,
    /// Whether one of them animates the property.
    pub animates: PerProperty<bool>,
}

impl GroupRow {
    /// The row of a group of which this model is the only one, in this state.
    pub fn of(model: &ModelSpec, state: RunState) -> GroupRow
        ensures { result ≡ first_row model.now state }
    {
        GroupRow {
            group: model.group(),
            element: model.element(),
            waiting: usize::from(state.is_waiting()),
            unfinished: usize::from(state.is_unfinished()),
            animates: PerProperty::every(false).with(model.property(), true),
        }
    }

    /// The row with one more model of the group, in this state.
    pub fn with(self, model: &ModelSpec, state: RunState) -> GroupRow
        requires waiting { self.waiting < usize.MAX }
        requires unfinished { self.unfinished < usize.MAX }
        ensures { result ≡ row_with model.now state self }
    {
        GroupRow {
            waiting: self.waiting + usize::from(state.is_waiting()),
            unfinished: self.unfinished + usize::from(state.is_unfinished()),
            animates: self.animates.with(model.property(), true),
            ..self
        }
    }

    /// The row as a model of the group goes from one state to another.
    pub fn moved(self, before: RunState, after: RunState) -> GroupRow
        requires { CanMove usize.MAX before after self }
        ensures { result ≡ moved before after self }
    {
        GroupRow {
            waiting: moved_count(self.waiting, before.is_waiting(), after.is_waiting()),
            unfinished: moved_count(
                self.unfinished,
                before.is_unfinished(),
                after.is_unfinished(),
            ),
            ..self
        }
    }

    /// Whether the group may start in this tick, by the table of both trees. `pending_has` says whether a pending
    /// commit stands and has a model of the group.
    #[tactic(auto, unfolding(crate::specs::Ready::is_ready))]
    pub fn ready(&self, table: &ElementAnims, pending_has: bool) -> bool
        ensures { result ≡ is_ready self.now table.now pending_has }
    {
        self.waiting > 0 && self.is_there(table, pending_has) && !self.is_some_blocked(table)
    }

    // The element is in the active tree and, where it is asked for, in the pending one.
    fn is_there(&self, table: &ElementAnims, pending_has: bool) -> bool
        ensures { result ≡ is_there table.now self.now.element pending_has }
    {
        table.present(Tree::Active, self.element)
            && (!pending_has || table.present(Tree::Pending, self.element))
    }

    // Another group blocks a property that the models of the group animate.
    fn is_some_blocked(&self, table: &ElementAnims) -> bool
        ensures { result ≡ is_some_blocked self.now table.now }
    {
        PROPERTIES.iter().any(|property| self.animates.at(*property)
            && self.is_blocked(table, *property))
    }

    // Another group blocks the property of the element.
    fn is_blocked(&self, table: &ElementAnims, property: Property) -> bool
        ensures { result ≡ is_blocked_for table.now self.now.group self.now.element property }
    {
        match table.blocked_by(self.element, property) {
            None => false,
            Some(blocker) => self.group != blocker,
        }
    }
}

// A count of models that are so, as one of them was so or not and is so or not.
fn moved_count(count: usize, was: bool, is: bool) -> usize
    requires had { one_if was ≤ count }
    requires fits { count + one_if is ≤ usize.MAX + one_if was }
    ensures { result ≡ moved_count was is count }
{
    match (was, is) {
        (true, false) => count - 1,
        (false, true) => count + 1,
        _ => count,
    }
}
