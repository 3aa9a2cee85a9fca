//! Both lanes of a script at once, each in a thread of its own, over one lock round the board.
//!
//! To the layer above it promises that the report of [`run_lanes`] is the one that the definitions of runs give for the
//! script and the report's own word, that this word orders the steps of both lanes, and that the laws of runs are true
//! of it. It knows each lane by the calls of its steps alone, whichever types have them. Nothing is promised of time,
//! of fairness, or of who comes first.
#![tactic(auto)]

mod both;
mod compositor_turns;
mod lane_board;
mod main_turns;

pub use both::run_lanes;
pub use compositor_turns::compositor_lane;
pub use lane_board::LaneBoard;
pub use main_turns::main_lane;
