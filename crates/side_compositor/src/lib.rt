//! The compositor's side: its host, its trees and the commit that it has pulled, behind the calls of its steps.
//!
//! To the layer above it promises that each call makes of the side what the definitions of the sides say. The host and
//! the trees hold the same commits between any two calls. A call that finds no memory loses no commit and no mark.
#![tactic(auto)]

mod side;

pub use side::CompositorSide;
