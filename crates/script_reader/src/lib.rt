//! Reading scripts, line by line, up to the first line that is refused.
#![tactic(auto)]

mod compositor_part;
mod draft;
mod key_list;
mod lines;
mod main_part;
mod model_with;
mod reader;
mod reading;

pub use reading::read_script;
