//! The board between main and the compositor: a mailbox for the newest commit, the events that were sent, and the
//! journal of all that the two did with them.
//!
//! To the layer above it promises that each call answers as the entries before it say, makes exactly one entry of its
//! own and takes no memory, and that the word of a journal can be read off it. The two traits are the calls of which
//! the lanes' steps are made, whoever keeps the trees.
#![tactic(auto)]

mod board;
mod compositor_steps;
pub mod journals;
mod main_steps;
mod word;

pub use board::{Board, PendingSlot};
pub use compositor_steps::CompositorSteps;
pub use main_steps::MainSteps;
