//! Edits of main's tree: what one changes, why one is refused, and the book that they are checked against.

pub mod edit;
pub mod edit_book;
pub mod fault;
pub mod group_shape;
pub mod refusal;
