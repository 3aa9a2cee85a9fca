//! The calls by which the compositor pushes and activates a commit, ticks, and reads its news. Which marks a tick
//! makes is worked out elsewhere in this crate.

ghost use Rattle.std.specs.Prelude.{◌≡◌, ◌≤◌, ℕ, [], None, Some, IfOk, OnOk, OnErr, length};
ghost use Rattle.anim_host.specs.declared.TheConstants.{MOST_HOSTED};
ghost use Rattle.anim_host.specs.Hosting.{HasRoomToPush, hosting_after_activation, hosting_after_push, hosting_after_tick, new_hosting, shown_in};
ghost use Rattle.host_tables.specs.MarkLists.{StartsAreWithin, events_behind};
ghost use Rattle.anim_timeline.specs.Timelines.{IsTime};
ghost use Rattle.element_anims.specs.Rows.{is_blocked_by};
ghost use Rattle.host_tables.specs.Elements.{has_in};
ghost use Rattle.run_rules.specs.Follows.{Follows, TreesAgree};
ghost use Rattle.run_rules.specs.Marks.{blocks};
ghost use Rattle.tree_commit.specs.Trees.{empty_commit};

use crate::aborts::abort_lost;
use crate::standing::Standing;
use crate::ticks::make_tick;
use anim_names::{AnimEvent, ElementId, GroupId, ModelId, Property, Tree};
use element_samples::StartTable;
use host_tables::CommitGroups;
use std::alloc::{AllocError, Global};
use std::marker::Model;
use std::sync::Arc;
use tree_commit::{Commit, Shown};

/// What the compositor keeps of its animations: the active and the pending commit, every mark that was made, and the
/// tables that say quickly what these say: a row for each model of either commit and for each group of the active one,
/// and the groups of each commit.
///
/// The compositor has one, on its own thread. It does not know values, curves or frames. A contract sees a `Hosting`.
pub struct AnimHost {
    alloc: Global,
    standing: Standing,
    groups: CommitGroups,
    next: Option<CommitGroups>,
    models: u32,
}

impl Drop for AnimHost {
    fn drop(self) {
        let AnimHost {
            alloc: _,
            standing: _standing,
            groups: _groups,
            next: _next,
            models: _,
        } = self;
    }
}

impl Model for AnimHost {
    ghost use Rattle.anim_host.specs.Hosting.{Hosting};
    ghost use Rattle.anim_host.specs.Standing.{GroupsGoWithCommits};

    ghost Value = { Hosting };

    ghost view = { λ h. record {
      active = h.standing.active;
      pending = h.standing.pending;
      marks = h.standing.list.marks;
      cleared = h.standing.list.cleared;
      last_tick = h.standing.last_tick;
      models = h.models;
    } };

    ghost invariant = { λ h. GroupsGoWithCommits h.standing h.groups h.next };
}

impl AnimHost {
    /// A host for this many keyframe models, with room for two events for each. Commit 0 is active, which has nothing
    /// in it.
    pub fn new(alloc: Global, models: u32) -> Result<AnimHost, AllocError>
        requires { models ≤ MOST_HOSTED }
        ensures { IfOk result (λ host. host ≡ new_hosting models) }
    {
        Ok(AnimHost {
            alloc,
            standing: roomy(alloc, models)?,
            groups: CommitGroups::empty(alloc),
            next: None,
            models,
        })
    }

    /// Makes this the pending commit. The host shares it.
    pub fn push_commit(&mut self, commit: &Arc<Commit>) -> Result<(), AllocError>
        requires free { self.old.pending ≡ None }
        requires follows { Follows self.old.active.tree commit.now.value.tree self.old.marks }
        requires room { HasRoomToPush self.old commit.now.value }
        ensures ok { OnOk result (self.new ≡ hosting_after_push self.old commit.now.value) }
        ensures err { OnErr result (self.new ≡ self.old) }
    {
        let next = CommitGroups::of(self.alloc, commit)?;
        self.standing.push_commit(commit)?;
        self.next = Some(next);
        Ok(())
    }

    /// Makes the pending commit the active one. Models that are lost are aborted: those that are not ended and that the
    /// new commit does not have, and those that run and whose element it does not have. It takes no memory.
    pub fn activate(&mut self, active: &Commit, pending: &Commit)
        requires active { active.now ≡ self.old.active }
        requires pending { self.old.pending ≡ Some pending.now }
        ensures activated { self.new ≡ hosting_after_activation self.old pending.now }

        // Of every host: a model of both commits is one, and a timeline of both has one zero.
        ensures agree { TreesAgree active.now.tree pending.now.tree }
    {
        abort_lost(&mut self.standing, active, pending);
        self.standing.vouch();
        self.standing.take_over(pending);
        if let Some(groups) = self.next.take() {
            self.groups = groups;
        }
    }

    /// Makes the marks of the tick of this time, in microseconds: groups finish, and then groups start. Where there is
    /// no memory, all stays as it was.
    pub fn tick(&mut self, active: &Commit, time: u64) -> Result<(), AllocError>
        requires active { active.now ≡ self.old.active }
        requires later { self.old.last_tick ≤ time }
        requires in_time { IsTime time }
        ensures ok { OnOk result (self.new ≡ hosting_after_tick self.old time) }
        ensures err { OnErr result (self.new ≡ self.old) }
    {
        make_tick(
            self.alloc,
            &mut self.standing,
            active,
            &self.groups,
            &self.next,
            time,
        )
    }

    /// The time of the last tick, in microseconds; 0 before any.
    pub fn last_tick(&self) -> u64
        ensures { result ≡ self.now.last_tick }
    {
        self.standing.last_tick()
    }

    /// Whether the commit in this tree, the active or the pending one, has the element.
    pub fn present(&self, tree: Tree, element: ElementId) -> bool
        ensures { result ≡ has_in tree self.now.active self.now.pending element }
    {
        self.standing.present(tree, element)
    }

    /// The group that blocks the property of the element, if one does: a model of it runs, and one of its models that
    /// started is of that property of that element.
    pub fn blocked_by(&self, element: ElementId, property: Property) -> Option<GroupId>
        ensures { (group : ℕ) → is_blocked_by group result ≡ blocks self.now.marks group element property }
    {
        self.standing.blocked_by(element, property)
    }

    /// The events of the marks since the news were cleared, in order.
    pub fn news(&self) -> &[AnimEvent]
        ensures events { result.now ≡ events_behind self.now.cleared self.now.marks }

        // Of every host: no more marks were told than there are, and recorded starts are in the range of times.
        ensures told { self.now.cleared ≤ length self.now.marks }
        ensures within { StartsAreWithin self.now.marks }
    {
        self.standing.marks().news()
    }

    /// Clears the news: all marks were told.
    pub fn clear_news(&mut self)
        ensures { self.new ≡ record self.old { cleared = length self.old.marks } }
    {
        self.standing.clear_news();
    }
}

impl StartTable for AnimHost {
    ghost starts = { λ host id. shown_in host id };

    fn shown(&self, model: ModelId) -> Option<Shown> {
        self.standing.shown(model)
    }
}

// Commit 0, no marks, and room for two for each model.
fn roomy(alloc: Global, models: u32) -> Result<Standing, AllocError>
    requires { models ≤ MOST_HOSTED }
    ensures stood { IfOk result (λ stood. (stood.active ≡ empty_commit)
        × (stood.pending ≡ None) × (stood.list.marks ≡ []) × (stood.list.cleared ≡ 0) × (stood.last_tick ≡ 0)) }
{
    let mut standing = Standing::new(alloc)?;
    standing.reserve(2 * models as usize)?;
    Ok(standing)
}
