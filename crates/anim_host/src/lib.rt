//! The compositor's host: which keyframe models start, finish and are aborted, and when.
//!
//! To the layer above it promises that the marks that a tick and an activation make are exactly those of the
//! definitions, and that what it shows of a model is read off its marks. It keeps one row for each model of its two
//! commits and for each group of the active one, the groups of each commit, and a table of elements. These stand for
//! the commits and the marks after every mark. It knows neither curves nor frames, and how a table keeps what it says
//! is the tables' own.
#![tactic(auto)]

mod aborts;
mod ends;
mod finish;
mod host;
pub mod laws;
mod models;
mod standing;
mod starts;
mod ticks;

pub use host::AnimHost;

/// The most keyframe models that a host may be made for: 2^30.
pub const MOST_HOSTED: u32 = 1 << 30;
