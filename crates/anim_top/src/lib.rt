//! The program, over a source and a sink: what it answers to its arguments and to the bytes that it reads.
//!
//! [`command`] is the call that the program makes. What it promises is one record, `KeepsPromises` of
//! `specs/Promises.antt`: it says, status by status, when each answer comes, what was read and what was written.
#![tactic(auto)]

mod answer;
pub mod arguments;
mod causes;
pub mod commands;
mod generating;
pub mod hooks;
mod intake;
pub mod outlet;
mod replaying;
pub mod running;
mod starting;
pub mod status;

pub use arguments::Command;
pub use commands::{command, plain_command};
pub use hooks::Hooks;
pub use outlet::write_all;
pub use running::run_threads;
pub use status::Status;
