//! What each line of a script says, by its fields alone: a step of main, a step of the compositor, a model, a key, or
//! the word.
//!
//! A line that says nothing is refused for the first cause in the order of its fields. Whether the line may come where
//! it comes is not judged here.
#![tactic(auto)]

mod compositor_line;
mod fault;
mod header_line;
mod key_line;
mod key_value;
mod main_line;
mod model_line;
mod own_value;

pub use compositor_line::{compositor_said, word_said};
pub use fault::LineFault;
pub use header_line::header_said;
pub use key_line::key_said;
pub use key_value::KeyValue;
pub use main_line::step_said;
pub use model_line::model_said;
