//! Trees, their edits and commits: what every layer above means by them.
//!
//! A commit is main's tree at one moment, which never changes. An edit changes one of the lists of main's tree; why it is
//! refused depends on the book of the edits and commits before it alone.
#![tactic(auto)]

pub mod base;
pub mod commit;
pub mod edits;
pub mod shown;

pub use base::Base;
pub use commit::Commit;
pub use edits::edit::Edit;
pub use edits::edit_book::EditBook;
pub use edits::fault::EditFault;
pub use edits::refusal::EditRefusal;
pub use shown::Shown;
