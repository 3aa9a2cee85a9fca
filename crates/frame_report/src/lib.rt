//! Reports: what a run of a script showed and told, and the text of it.
//!
//! A [`Report`] holds the order of a run's steps, its frames, its events and how many of them main had heard.
//! [`print_report`] gives the one text of it, line by line as `specs/Texts.antt` lists them, or says that memory ran
//! out; [`print_summary`] likewise gives a line that counts what it has. The spelling of each field is that of scripts.
//! Which report a script has is a matter of the definitions of runs.
#![tactic(auto)]

mod report;
mod summary;
mod texts;
pub mod worked;

pub use report::Report;
pub use summary::print_summary;
pub use texts::print_report;
