//! The tables that the host of animations is made of: rows of keyframe models and of groups, the groups of a commit,
//! the list of marks, and what the table of elements is told.
//!
//! Each says what became of it by a call, and memory is taken only where it says so. None of them knows which rows
//! there should be or which marks come when: that is the host's.
#![tactic(auto)]

mod commit_groups;
pub mod elements;
mod groups;
mod mark_list;
mod row;
mod rows;

pub use commit_groups::CommitGroups;
pub use groups::GroupTable;
pub use mark_list::{MarkList, sum};
pub use row::{advanced, shown};
pub use rows::RowTable;

/// The most marks that a list keeps: 2^32, so that the index of each is a `u32`. Two for each of the most keyframe
/// models of a host are fewer.
pub const MOST_MARKS: usize = 1 << 32;
