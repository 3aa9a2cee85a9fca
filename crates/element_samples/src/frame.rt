//! What the compositor draws at a tick. How the rows come about is not told here.

ghost use Rattle.std.specs.Prelude.{◌≡◌, ◌<◌, length, map, slice_get, Some};

use crate::FrameRow;
use std::marker::Model;

/// What the compositor draws at a tick: a row for each element of the active commit, in the commit's order.
///
/// A contract sees its tick, the number of its commit and its rows as plain data.
pub struct Frame {
    time: u64,
    commit: u32,
    rows: Vec<FrameRow>,
}

impl Drop for Frame {
    fn drop(self) {
        let Frame {
            time: _,
            commit: _,
            rows: _rows,
        } = self;
    }
}

impl Model for Frame {
    ghost use Rattle.std.specs.Prelude.{map};
    ghost use Rattle.run_rules.specs.Frames.{DrawnFrame};

    ghost Value = { DrawnFrame };

    ghost use Rattle.element_samples.specs.Views.{drawn_row_of};

    ghost view = { λ f. record { time = f.time; commit = f.commit; rows = map drawn_row_of f.rows.items } };
}

impl Frame {
    ghost use Rattle.element_samples.specs.Views.{drawn_row_of};

    /// The frame of a tick, in microseconds, that shows the commit of this number by these rows.
    pub fn from_rows(time: u64, commit: u32, rows: Vec<FrameRow>) -> Frame
        ensures { result ≡ record { time = time; commit = commit; rows = map drawn_row_of rows.items } }
    {
        Frame { time, commit, rows }
    }

    /// Its tick, in microseconds.
    pub fn time(&self) -> u64
        ensures { result ≡ self.now.time }
    {
        self.time
    }

    /// The number of the commit that it shows.
    pub fn commit(&self) -> u32
        ensures { result ≡ self.now.commit }
    {
        self.commit
    }

    /// How many rows it has.
    pub fn row_count(&self) -> usize
        ensures { result ≡ length self.now.rows }
    {
        self.rows.len()
    }

    /// The row at an index, from 0.
    pub fn row(&self, i: usize) -> &FrameRow
        requires { i < length self.now.rows }
        ensures { slice_get self.now.rows i ≡ Some (drawn_row_of result.now) }
    {
        &self.rows[i]
    }
}
