//! The pending tree: the commit that the compositor has pulled and not activated yet, if there is one.
//!
//! To the layer above it promises that a commit that is put in stands until it is taken, that no commit is put over
//! another, and that nothing here takes memory.
#![tactic(auto)]

mod pending;

pub use pending::PendingTree;
