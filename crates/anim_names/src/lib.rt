//! The names that every layer speaks: which element, model, group or timeline is meant, which lane made a
//! step, what happened to a model, and what an entry of the lanes' journal says.
//!
//! Plain values alone, all `Copy`. A contract sees an id as its number. Beside them stand what a script may hold at
//! most, and the number for 1 in a progress.
#![tactic(auto)]

pub mod entry;
pub mod event;
pub mod id;
pub mod lane;
pub mod limit;
pub mod per_property;
pub mod progress;
pub mod property;
pub mod version;

pub use entry::{Entry, EntryKind};
pub use event::AnimEvent;
pub use id::{ElementId, GroupId, ModelId, TimelineId};
pub use lane::{Lane, Tree};
pub use limit::LimitName;
pub use per_property::PerProperty;
pub use progress::ONE;
pub use property::{PROPERTIES, Property};
pub use version::Version;
