//! The lock between the lanes: one value with a journal, which main and the compositor use in sections that never
//! overlap.
//!
//! To the layer above it promises one history, whatever the schedule. The journal that a lane finds begins with all
//! that the lane has seen. It has of the lane exactly its own entries, in the order in which it made them. Both are
//! true, for both lanes, of the journal of the value that a closed lock gives back. The subject of the journal never
//! changes. That a lane ever gets its section is not promised.
#![tactic(auto)]

mod held;
mod journaled;
mod lock;
mod rule;
mod seat;
mod view;

pub use held::Held;
pub use journaled::Journaled;
pub use lock::CommitLock;
pub use seat::LaneSeat;
