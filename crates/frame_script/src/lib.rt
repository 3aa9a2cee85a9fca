//! Scripts, and their text: which bytes spell a script, which are refused, at which line and why, and what a script is
//! printed as. Reading and printing are crates of their own above this one.
#![tactic(auto)]

mod cause;
mod fault;
pub mod laws;
mod model_line;
mod script;
mod word;
pub mod worked;

pub use cause::Cause;
pub use fault::ScriptFault;
pub use model_line::{ModelLine, ModelNames};
pub use script::Script;
pub use word::is_word_of;

/// The most bytes that a script may have: 2^20.
pub const MOST_BYTES: usize = 1 << 20;
