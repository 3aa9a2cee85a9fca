//! The table of models' rows by the ids of the models: how each row changes by a mark, and by a commit that comes or
//! goes.

ghost use Rattle.std.specs.Prelude.{◌≡◌, ◌≢◌, ℕ, ◌+◌, ◌≤◌, ◌<◌, Some, None, OnOk, is_some, true, IfSome, option_map, option_and_then};
ghost use Rattle.keyframe_effect.specs.Groups.{one_if};
ghost use Rattle.host_tables.specs.Rows.{advanced_row, done_row, entered, joined, left, row_at, row_count, state_in};

use crate::row::advanced_row;
use anim_names::ModelId;
use keyframe_effect::{ModelRow, RunState};
use run_rules::ModelMark;
use slab::Slab;
use std::alloc::{AllocError, Global};
use std::collections::HashMap;
use std::marker::Model;

/// The rows of keyframe models, each under the id of its model.
///
/// It does not know which rows there should be. A contract sees the row of each id, how many rows there are, and how
/// many more can be put in without memory.
pub struct RowTable {
    rows: Slab<ModelRow>,
    keys: HashMap<ModelId, usize>,
    room: usize,
}

impl Drop for RowTable {
    fn drop(self) {
        let RowTable {
            rows: _rows,
            keys: _indices,
            room: _,
        } = self;
    }
}

impl Model for RowTable {
    ghost use Rattle.std.specs.Prelude.{◌≤◌};
    ghost use Rattle.std.specs.HashMap.{spare};
    ghost use Rattle.slab.specs.Slab.{HasRoomFor};
    ghost use Rattle.host_tables.specs.Rows.{Rows, KeysLead};

    ghost Value = { Rows };

    ghost view = { λ t. record { slots = t.rows.slots; keys = t.keys.entries; room = t.room } };

    ghost invariant = { λ t.
        KeysLead t.rows.slots t.keys.entries
        × HasRoomFor t.rows t.room
        × (t.room ≤ spare t.keys) };
}

impl RowTable {
    /// No rows, and no room for any.
    pub fn new(alloc: Global) -> RowTable
        ensures none { (id : ℕ) → row_at result id ≡ None }
        ensures count { row_count result ≡ 0 }
    {
        RowTable {
            rows: Slab::new(alloc),
            keys: HashMap::new(alloc),
            room: 0,
        }
    }

    /// How many rows there are.
    pub fn len(&self) -> usize
        ensures { result ≡ row_count self.now }
    {
        self.rows.len()
    }

    /// The row of a model, where there is one.
    pub fn row(&self, id: ModelId) -> Option<ModelRow>
        ensures row { result ≡ row_at self.now id }
        ensures own { IfSome result (λ row. row.model ≡ id) }
    {
        match self.keys.get(&id) {
            None => None,
            Some(key) => self.rows.get(*key).copied(),
        }
    }

    /// How far a model has come by its row. One that has none waits.
    pub fn state(&self, id: ModelId) -> RunState
        ensures { result ≡ state_in (row_at self.now id) }
    {
        match self.row(id) {
            Some(row) => row.state,
            None => RunState::Waiting,
        }
    }

    /// Makes room for this many further rows.
    pub fn reserve(&mut self, count: usize) -> Result<(), AllocError>
        ensures room { OnOk result (count ≤ self.new.room) }
        ensures rows { (id : ℕ) → row_at self.new id ≡ row_at self.old id }
        ensures count { row_count self.new ≡ row_count self.old }
    {
        self.rows.reserve(count)?;
        self.keys.reserve(count)?;
        self.room = count;
        Ok(())
    }

    /// Puts in a row under its model's id, which has none.
    pub fn insert(&mut self, row: ModelRow)
        requires absent { row_at self.old row.model ≡ None }
        requires room { 0 < self.old.room }
        ensures here { row_at self.new row.model ≡ Some row }
        ensures others { (id : ℕ) → id ≢ row.model → row_at self.new id ≡ row_at self.old id }
        ensures count { row_count self.new ≡ row_count self.old + 1 }
        ensures room { self.new.room + 1 ≡ self.old.room }
    {
        let id = row.model;
        let key = self.rows.insert_reserved(row);
        match self.keys.insert(id, key) {
            Ok(_) => {}
            Err(_) => {}
        }
        self.room -= 1;
    }

    /// Puts this row in the place of its model's row.
    pub fn set(&mut self, row: ModelRow)
        requires there { is_some (row_at self.old row.model) ≡ true }
        ensures here { row_at self.new row.model ≡ Some row }
        ensures others { (id : ℕ) → id ≢ row.model → row_at self.new id ≡ row_at self.old id }
        ensures count { row_count self.new ≡ row_count self.old }
        ensures room { self.new.room ≡ self.old.room }
    {
        if let Some(key) = self.keys.get(&row.model) {
            if let Some(kept) = self.rows.get_mut(*key) {
                *kept = row;
            }
        }
    }

    /// Takes out the row of a model.
    pub fn remove(&mut self, id: ModelId)
        ensures here { row_at self.new id ≡ None }
        ensures others { (other : ℕ) → other ≢ id → row_at self.new other ≡ row_at self.old other }
        ensures count { row_count self.new + one_if (is_some (row_at self.old id)) ≡ row_count self.old }
        ensures room { self.new.room ≡ self.old.room }
    {
        if let Some(key) = self.keys.remove(&id) {
            let _ = self.rows.try_remove(key);
        }
    }

    /// Puts what became of the model into its row. The mark of it has this index among the marks.
    pub fn advance(&mut self, model: ModelId, what: &ModelMark, order: u32)
        ensures here { row_at self.new model ≡ option_map (advanced_row what.now order) (row_at self.old model) }
        ensures others { (id : ℕ) → id ≢ model → row_at self.new id ≡ row_at self.old id }
        ensures count { row_count self.new ≡ row_count self.old }
        ensures room { self.new.room ≡ self.old.room }
    {
        if let Some(row) = self.row(model) {
            self.set(advanced_row(row, what, order));
        }
    }

    /// The iterations of a running model are found over.
    pub fn mark_done(&mut self, id: ModelId)
        ensures here { row_at self.new id ≡ option_map done_row (row_at self.old id) }
        ensures others { (other : ℕ) → other ≢ id → row_at self.new other ≡ row_at self.old other }
        ensures count { row_count self.new ≡ row_count self.old }
        ensures room { self.new.room ≡ self.old.room }
    {
        if let Some(mut row) = self.row(id) {
            row.mark_done();
            self.set(row);
        }
    }

    /// A model is in the pending commit from now on. A model that had no row waits.
    pub fn join_pending(&mut self, id: ModelId)
        requires room { 0 < self.old.room }
        ensures here { row_at self.new id ≡ Some (joined id (row_at self.old id)) }
        ensures others { (other : ℕ) → other ≢ id → row_at self.new other ≡ row_at self.old other }
        ensures count { row_count self.new + one_if (is_some (row_at self.old id)) ≡ row_count self.old + 1 }
        ensures room { self.old.room ≤ self.new.room + 1 }
    {
        match self.row(id) {
            Some(row) => self.set(ModelRow {
                in_pending: true,
                ..row
            }),
            None => self.insert(ModelRow {
                model: id,
                state: RunState::Waiting,
                in_active: false,
                in_pending: true,
            }),
        }
    }

    /// A model is in the active commit no more. Where it is not in the pending one either, its row is freed.
    pub fn leave_active(&mut self, id: ModelId)
        ensures here { row_at self.new id ≡ option_and_then left (row_at self.old id) }
        ensures others { (other : ℕ) → other ≢ id → row_at self.new other ≡ row_at self.old other }
        ensures count { row_count self.new + one_if (is_some (row_at self.old id))
            ≡ row_count self.old + one_if (is_some (option_and_then left (row_at self.old id))) }
        ensures room { self.new.room ≡ self.old.room }
    {
        match self.row(id) {
            Some(row) if row.in_pending => self.set(ModelRow {
                in_active: false,
                ..row
            }),
            Some(_) => self.remove(id),
            None => {}
        }
    }

    /// A model of the pending commit is in the active one instead.
    pub fn enter_active(&mut self, id: ModelId)
        ensures here { row_at self.new id ≡ option_map entered (row_at self.old id) }
        ensures others { (other : ℕ) → other ≢ id → row_at self.new other ≡ row_at self.old other }
        ensures count { row_count self.new ≡ row_count self.old }
        ensures room { self.new.room ≡ self.old.room }
    {
        if let Some(row) = self.row(id) {
            self.set(ModelRow {
                in_active: true,
                in_pending: false,
                ..row
            });
        }
    }
}
