//! Printing scripts, each in one way.
#![tactic(auto)]

pub mod laws;
mod printing;

pub use printing::print_script;
