//! The state in which a keyframe model runs, and whether a group may start by these states.
//!
//! A row stands for a model or for a group, and nothing here takes memory. Which row is whose, and when its calls are
//! made, is the host's.
#![tactic(auto)]

mod group;
pub mod laws;
mod model;
mod state;

pub use group::GroupRow;
pub use model::ModelRow;
pub use state::RunState;
