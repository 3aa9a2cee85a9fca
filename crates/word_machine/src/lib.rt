//! Replays a script: both lanes' steps, one after the other, in the order of its word.
//!
//! To the layer above it promises that the report is the one that the definitions of runs give, and that the laws of
//! runs are true of it. It knows each lane by the calls of its steps alone, whichever types have them. Its definitions
//! of a run with its journal serve a run in threads too.
#![tactic(auto)]

mod replays;
mod turns;

pub use replays::{close, replay};
pub use turns::make_edit;
