//! Which elements are in the compositor's two trees, and which group blocks each property of an element.
//!
//! One table serves both trees. Each call takes the same time, however many elements there are, and memory is taken by
//! `reserve` alone.
#![tactic(auto)]

mod row;
mod table;

pub use table::ElementAnims;
