//! The active tree: the commit that the compositor draws, and its frames.
//!
//! To the layer above it promises that the active commit is the one that was set last, the empty commit at first,
//! and that a frame is the one that the definition of frames gives for what a table of starts shows.
#![tactic(auto)]

mod active;
mod element_models;
mod model_list;
mod sampled_commit;
mod sampling;

pub use active::ActiveTree;
