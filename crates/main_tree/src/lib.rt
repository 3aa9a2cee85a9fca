//! Main's tree, which edits change and commit steps publish.
//!
//! To the layer above it promises what the definitions say: the tree after each edit and after each event that main
//! hears, why an edit is refused, and that a commit holds the tree as it is. Edits are checked against the same book
//! that a reader of scripts keeps, so both answer alike. Models and lists are shared with the commits and never copied.
#![tactic(auto)]

mod tree;

pub use tree::MainTree;
