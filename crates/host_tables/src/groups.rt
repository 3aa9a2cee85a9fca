//! The table of groups' rows by the ids of the groups, with counts that each change of a model's state adjusts.

ghost use Rattle.std.specs.Prelude.{◌≡◌, ◌≢◌, ℕ, ◌+◌, ◌≤◌, ◌<◌, Some, None, IfSome, IsSome, OnOk, option_map};
ghost use Rattle.host_tables.specs.Groups.{group_at, joined_row};
ghost use Rattle.keyframe_effect.specs.Groups.{CanMove, moved};

use anim_names::GroupId;
use keyframe_effect::{GroupRow, RunState};
use keyframe_model::ModelSpec;
use std::alloc::{AllocError, Global};
use std::collections::HashMap;
use std::marker::Model;

/// The rows of groups, each under the id of its group.
///
/// It does not know which rows there should be. A contract sees the row of each id, and how many more can be put in
/// without memory.
pub struct GroupTable {
    rows: HashMap<GroupId, GroupRow>,
    room: usize,
}

impl Drop for GroupTable {
    fn drop(self) {
        let GroupTable {
            rows: _rows,
            room: _,
        } = self;
    }
}

impl Model for GroupTable {
    ghost use Rattle.std.specs.Prelude.{◌≤◌};
    ghost use Rattle.std.specs.HashMap.{spare};
    ghost use Rattle.host_tables.specs.Groups.{Groups};

    ghost Value = { Groups };

    ghost view = { λ t. record { entries = t.rows.entries; room = t.room } };

    ghost invariant = { λ t. t.room ≤ spare t.rows };
}

impl GroupTable {
    /// No rows, and no room for any.
    pub fn new(alloc: Global) -> GroupTable
        ensures { (id : ℕ) → group_at result id ≡ None }
    {
        GroupTable {
            rows: HashMap::new(alloc),
            room: 0,
        }
    }

    /// The row of a group, where there is one.
    pub fn row(&self, group: GroupId) -> Option<GroupRow>
        ensures { result ≡ group_at self.now group }
    {
        self.rows.get(&group).copied()
    }

    /// Makes room for this many further rows, and for as many once the table was cleared.
    pub fn reserve(&mut self, count: usize) -> Result<(), AllocError>
        ensures room { OnOk result (count ≤ self.new.room) }
        ensures rows { (id : ℕ) → group_at self.new id ≡ group_at self.old id }
    {
        self.rows.reserve(count)?;
        self.room = count;
        Ok(())
    }

    /// Takes out all rows. The room stays.
    pub fn clear(&mut self)
        ensures none { (id : ℕ) → group_at self.new id ≡ None }
        ensures room { self.new.room ≡ self.old.room }
    {
        self.rows.clear();
    }

    /// One more model, in this state, is in the row of its group.
    pub fn join(&mut self, model: &ModelSpec, state: RunState)
        requires room { 0 < self.old.room }
        requires waiting { IfSome (group_at self.old model.now.group) (λ row. row.waiting < usize.MAX) }
        requires unfinished { IfSome (group_at self.old model.now.group) (λ row. row.unfinished < usize.MAX) }
        ensures here { group_at self.new model.now.group ≡ Some (joined_row model.now state (group_at self.old model.now.group)) }
        ensures others { (id : ℕ) → id ≢ model.now.group → group_at self.new id ≡ group_at self.old id }
        ensures room { self.old.room ≤ self.new.room + 1 }
    {
        let group = model.group();
        let row = joined(self.row(group), model, state);
        self.put(group, row);
    }

    // Puts in a row, in the place of the group's row where it has one.
    fn put(&mut self, group: GroupId, row: GroupRow)
        requires room { 0 < self.old.room }
        ensures here { group_at self.new group ≡ Some row }
        ensures others { (id : ℕ) → id ≢ group → group_at self.new id ≡ group_at self.old id }
        ensures room { self.new.room + 1 ≡ self.old.room }
    {
        match self.rows.insert(group, row) {
            Ok(_) => {}
            Err(_) => {}
        }
        self.room -= 1;
    }

    /// A model of the group goes from one state to another.
    pub fn advance(&mut self, group: GroupId, before: RunState, after: RunState)
        requires { IfSome (group_at self.old group) (CanMove usize.MAX before after) }
        ensures here { group_at self.new group ≡ option_map (moved before after) (group_at self.old group) }
        ensures others { (id : ℕ) → id ≢ group → group_at self.new id ≡ group_at self.old id }
        ensures room { self.new.room ≡ self.old.room }
    {
        match self.row(group) {
            None => {}
            Some(row) => self.replace(group, row.moved(before, after)),
        }
    }

    // Puts this row in the place of the group's row.
    fn replace(&mut self, group: GroupId, row: GroupRow)
        requires there { IsSome (group_at self.old group) }
        ensures here { group_at self.new group ≡ Some row }
        ensures others { (id : ℕ) → id ≢ group → group_at self.new id ≡ group_at self.old id }
        ensures room { self.new.room ≡ self.old.room }
    {
        *self.rows.get_mut(&group).unwrap() = row;
    }
}

// The row of a group with one more model, which may be its first.
fn joined(row: Option<GroupRow>, model: &ModelSpec, state: RunState) -> GroupRow
    requires waiting { IfSome row (λ row. row.waiting < usize.MAX) }
    requires unfinished { IfSome row (λ row. row.unfinished < usize.MAX) }
    ensures { result ≡ joined_row model.now state row }
{
    match row {
        None => GroupRow::of(model, state),
        Some(row) => row.with(model, state),
    }
}
