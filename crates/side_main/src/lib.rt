//! Main's side of a run: main's tree, what it was told and has not heard yet, and how many steps were made.
//!
//! To the layer above it promises the calls of which main's steps are made, each as the definitions make it. Only the
//! calls on the board meet the other lane, so a program that runs the lanes in threads locks the board for these alone.
#![tactic(auto)]

mod hearing;
mod side;

pub use side::MainSide;
