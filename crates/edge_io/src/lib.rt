//! The outside: bytes that are read and bytes that are written.
//!
//! A [`Source`] gives bytes and a [`Sink`] takes them. A contract knows the bytes that are left and taken
//! where the source or the sink tells them, and a count of faults that never falls. So a program generic in
//! both can say what it wrote for what it read, and that a fault which it answers was one of the outside.
//!
//! A [`Gate`] stands before the steps of lanes that run side by side. It may take time and nothing else, and no
//! clause says what a gate does.
//!
//! No type here knows a script, a report or a line, and none keeps the reason of a failure. A source and a sink may
//! move to another thread and belong to one thread at a time: the program uses both on the thread that called it, the
//! source before its lanes run and the sink after they ended. A gate is shared by both lanes.
#![tactic(auto)]

mod call;
mod capacity;
pub mod failed;
pub mod gates;
pub mod memory_sink;
pub mod memory_source;
pub mod sink;
pub mod source;
pub mod std_sink;
pub mod std_source;
pub mod steady_sink;
pub mod steady_source;

pub use failed::Failed;
pub use gates::{Gate, HoldGate, IdleGate, MeetGate};
pub use memory_sink::MemorySink;
pub use memory_source::MemorySource;
pub use sink::Sink;
pub use source::Source;
pub use std_sink::StdSink;
pub use std_source::StdSource;
pub use steady_sink::SteadySink;
pub use steady_source::SteadySource;
