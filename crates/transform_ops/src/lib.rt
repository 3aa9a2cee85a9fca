//! The transform of an element: lists of at most eight operations, and how one turns into another.
//!
//! Operations are kept as they were given, and no matrix is ever made of them. Two lists blend as far as their
//! operations match; a missing operation is its neutral one.
#![tactic(auto)]

pub mod ends;
pub mod fault;
pub mod list;
pub mod op;
pub mod worked;

pub use fault::ListFault;
pub use list::TransformList;
pub use op::TransformOp;

/// The most operations of a list.
pub const MOST_OPERATIONS: usize = 8;

/// The number for 1 in a scale, in millionths: it leaves the size as it is.
pub const SAME_SIZE: i64 = 1_000_000;
