//! Scripts of any size, made from a number.
//!
//! [`generate`] makes one of n elements, each with two models, that come and go over 4 n ticks, between which commits
//! are pulled and activated. `specs/Generated.antt` says step by step what it holds; that it may run, for each number,
//! is a law.
#![tactic(auto)]

mod compositor_steps;
mod generated;
pub mod laws;
mod main_steps;
mod models;
mod rounds;

pub use generated::generate;

/// The largest number that a script is made from: its ticks times its elements are then 160,000.
pub const MOST_GENERATED: u32 = 200;
