//! The fields of a script's lines: what each is spelled as, and what it says.
//!
//! A line is fields with a space between two, and a field may be parts with a colon between two. What a field says is a
//! function of its bytes, which `specs/` gives for numbers, keywords, easings and lists; each reader here answers just
//! that, and nothing where the field says nothing.
#![tactic(auto)]

pub mod easings;
pub mod fault;
pub mod fields;
pub mod keywords;
pub mod laws;
pub mod lists;
pub mod numbers;
pub mod printed;
pub mod values;

pub use easings::easing_said;
pub use fault::FieldFault;
pub use fields::{fields_into, is};
pub use lists::list_read;
pub use numbers::{natural_within, number_said};
