//! When main drops a keyframe model of which it hears that it finished or was aborted.
//!
//! Each model has a [`Policy`], and a table of policies and events gives the [`Verdict`]. The table is this
//! project's own. A [`Delegate`] holds a function that follows it, whichever one the program stores.
#![tactic(auto)]

pub mod delegate;
pub mod policy;
pub mod verdict;

pub use delegate::{Delegate, VerdictFunction};
pub use policy::Policy;
pub use verdict::Verdict;
