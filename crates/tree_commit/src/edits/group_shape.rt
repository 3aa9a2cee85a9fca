//! What the models of one group have in common. Which groups there are is the book's.

ghost use Rattle.std.specs.Prelude.{◌≡◌, ℕ, ◌==◌, ◌&&◌, nat_eq, Some, IfOk, OnOk, OnErr};
ghost use Rattle.std.specs.List.{list_any};
ghost use Rattle.std.specs.Option.{option_eq};
ghost use Rattle.anim_names.specs.Properties.{is_property};
ghost use Rattle.tree_commit.specs.Edits.{new_parts, with_property, is_closed, is_mixed};
ghost use Rattle.tree_commit.specs.Books.{group_of};

use anim_names::{ElementId, Property, TimelineId};
use keyframe_model::ModelSpec;
use std::alloc::{AllocError, Global};

/// What all models ever added to a group have in common, and which properties they animate.
///
/// It does not know the group's own id, nor which of the models are still there.
pub struct GroupShape {
    element: ElementId,
    timeline: TimelineId,
    start: Option<u64>,
    properties: Vec<Property>,
    commits_before: u32,
}

impl Drop for GroupShape {
    fn drop(self) {
        let GroupShape {
            element: _,
            timeline: _,
            start: _,
            properties: _properties,
            commits_before: _,
        } = self;
    }
}

impl GroupShape {
    /// The shape of a group with its first model, which is added after this many commits.
    pub fn of_first(alloc: Global, spec: &ModelSpec, commits: u32) -> Result<GroupShape, AllocError>
        ensures { IfOk result (λ shape. group_of (spec.now.group, shape) ≡ new_parts commits spec.now) }
    {
        Ok(GroupShape {
            element: spec.element(),
            timeline: spec.timeline(),
            start: spec.start(),
            properties: vec![in alloc; spec.property()]?,
            commits_before: commits,
        })
    }

    /// Takes one more model into the shape, of this property. Where there is no memory the shape stays as it was.
    pub fn add_property(&mut self, property: Property) -> Result<(), AllocError>
        ensures ok { OnOk result ((group : ℕ) → group_of (group, self.new) ≡ with_property property (group_of (group, self.old))) }
        ensures err { OnErr result ((group : ℕ) → group_of (group, self.new) ≡ group_of (group, self.old)) }
    {
        self.properties.push(property)?;
        Ok(())
    }

    /// Whether a commit came since the first model, after this many commits now.
    pub fn is_closed(&self, commits: u32) -> bool
        ensures { (group : ℕ) → result ≡ is_closed commits (Some (group_of (group, self.now))) }
    {
        self.commits_before < commits
    }

    /// Whether a model with these parts does not go with the group.
    pub fn is_mixed(
        &self,
        element: ElementId,
        timeline: TimelineId,
        start: Option<u64>,
        property: Property,
    ) -> bool
        ensures { (group : ℕ) → result ≡ is_mixed element timeline start property (Some (group_of (group, self.now))) }
    {
        !self.is_alike(element, timeline, start) || self.has(property)
    }

    // Whether a model with these parts has what the models of the group have in common.
    fn is_alike(&self, element: ElementId, timeline: TimelineId, start: Option<u64>) -> bool
        ensures { result ≡ (element == self.now.element && timeline == self.now.timeline && option_eq nat_eq start self.now.start) }
    {
        element == self.element && timeline == self.timeline && start == self.start
    }

    // Whether a model of the group animates the property.
    fn has(&self, property: Property) -> bool
        ensures { result ≡ list_any (is_property property) self.now.properties.items }
    {
        self.properties
            .iter()
            .any(|other| is_same(property, *other))
    }
}

// Whether the two are one property.
pub(crate) fn is_same(property: Property, other: Property) -> bool
    ensures { result ≡ is_property property other }
{
    property == other
}
