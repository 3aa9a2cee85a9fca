//! Events that were sent and are not heard yet, in the order of sending.
//!
//! To the layer above it promises that each event is given once, in order, and that nothing is lost: all that was ever
//! sent can be read. Sending and giving take no memory once there is room.
#![tactic(auto)]

mod queue;

pub use queue::EventQueue;
