//! Whole scripts with the reports that they have, computed by the check from the definitions alone.
//!
//! Each function's clauses say that its script is well formed, and that its report for its word is the one that was
//! worked out by hand. Nothing runs here.
#![tactic(auto)]

pub mod refusals;
pub mod reports;

/// The opacity of an element a third of the way from nothing to opaque, rounded down.
pub const A_THIRD_IN: u32 = 333_332;

/// The time from which the models of a group count whose element came late.
pub const START_OF_THE_LATE: i64 = 2_000;

/// The number of the commit that dropped a running model.
pub const ABORTING_COMMIT: u32 = 2;

/// The tick in which a group finishes and its property is taken by the next.
pub const FREED_AT: u64 = 3_000;

/// The opacity of an element that comes back from nothing, at its second frame.
pub const FADED_BACK: u32 = 165_019;

/// The opacity that a finished model's fill shows as long as main keeps the model.
pub const SHOWN_BY_ITS_FILL: u32 = 500_000;

/// The model that was aborted and stays in main's tree, since its policy drops finished ones alone.
pub const KEPT_AFTER_ITS_ABORT: u32 = 5;

/// The tick in which a group finishes that blocked with a model which was aborted before.
pub const BLOCKED_UNTIL: u64 = 3_000;

/// The tick in which a model starts that the pending commit has dropped with its element.
pub const STARTED_WHILE_DROPPED: u64 = 1_000;
