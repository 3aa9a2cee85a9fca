//! One element's row of the table: its presence in both trees, and the group that blocks each of its properties.
//! Elements have no names here.

ghost use Rattle.std.specs.Prelude.{◌≡◌, is_some};
ghost use Rattle.anim_names.specs.Properties.{is_some_at};
ghost use Rattle.element_anims.specs.Rows.{blocker_in, freed, idle_row, is_idle, is_in_tree, unless_by, with_blocker, with_presence, without_blocker};

use anim_names::{GroupId, PROPERTIES, PerProperty, Property, Tree};
use std::marker::Model;

/// What is kept of one element. Contracts see a `Row`.
#[derive(Clone, Copy, PartialEq, Eq)]
pub(crate) struct ElementRow {
    /// Whether the pending tree has the element.
    pending: bool,
    /// Whether the active tree has the element.
    active: bool,
    /// The group that blocks each of its properties.
    blockers: PerProperty<Option<GroupId>>,
}

impl Model for ElementRow {
    ghost use Rattle.element_anims.specs.Rows.{Row, row_parts};

    ghost Value = { Row };

    ghost view = { λ r. row_parts r.pending r.active r.blockers };

    ghost inverse = { λ v. record { pending = v.pending; active = v.active; blockers = v.blockers } };
}

impl ElementRow {
    // The row of an element of which nothing is kept.
    pub(crate) fn idle() -> ElementRow
        ensures { result ≡ idle_row }
    {
        ElementRow {
            pending: false,
            active: false,
            blockers: PerProperty::every(None),
        }
    }

    // Whether the row says nothing.
    pub(crate) fn is_idle(&self) -> bool
        ensures { result ≡ is_idle self.now }
    {
        !(self.pending || self.active || self.is_blocked())
    }

    // Whether a property of the element is blocked.
    fn is_blocked(&self) -> bool
        ensures { result ≡ is_some_at is_some self.now.blockers }
    {
        PROPERTIES
            .iter()
            .any(|property| self.blockers.at(*property).is_some())
    }

    // Whether the element is in the tree.
    pub(crate) fn is_in(&self, tree: Tree) -> bool
        ensures { result ≡ is_in_tree tree self.now }
    {
        match tree {
            Tree::Pending => self.pending,
            Tree::Active => self.active,
        }
    }

    // The group that blocks the property of the element, if one does.
    pub(crate) fn blocker(&self, property: Property) -> Option<GroupId>
        ensures { result ≡ blocker_in self.now property }
    {
        self.blockers.at(property)
    }

    // The row with what it says of one tree changed.
    pub(crate) fn with_presence(self, tree: Tree, there: bool) -> ElementRow
        ensures { result ≡ with_presence self tree there }
    {
        match tree {
            Tree::Pending => ElementRow {
                pending: there,
                ..self
            },
            Tree::Active => ElementRow {
                active: there,
                ..self
            },
        }
    }

    // The row with the blocker of one property changed.
    pub(crate) fn with_blocker(self, property: Property, group: Option<GroupId>) -> ElementRow
        ensures { result ≡ with_blocker self property group }
    {
        ElementRow {
            blockers: self.blockers.with(property, group),
            ..self
        }
    }

    // The row with no property blocked by the group.
    pub(crate) fn without_blocker(self, group: GroupId) -> ElementRow
        ensures { result ≡ without_blocker self group }
    {
        let mut row = self;
        for index in 0..PROPERTIES.len() {
            row = row.freed(PROPERTIES[index], group);
        }
        row
    }

    // The row with this property not blocked by the group.
    fn freed(self, property: Property, group: GroupId) -> ElementRow
        ensures { result ≡ freed group self property }
    {
        let blocker = unless_by(group, self.blocker(property));
        self.with_blocker(property, blocker)
    }
}

// What blocks a property once the group does not.
fn unless_by(group: GroupId, blocker: Option<GroupId>) -> Option<GroupId>
    ensures { result ≡ unless_by group blocker }
{
    match blocker {
        Some(other) if group == other => None,
        other => other,
    }
}
