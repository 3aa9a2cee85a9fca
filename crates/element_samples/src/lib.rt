//! The sample of one element: the value that counts of each property, by the keyframe models that animate it, and what a
//! frame shows of the element.
//!
//! To the layers above it promises the rows that the definitions of frames give. Whoever keeps the starts of models, and
//! whoever draws whole frames, is above.
#![tactic(auto)]

pub mod frame;
pub mod frame_row;
pub mod latest;
pub mod sampling;
pub mod start_table;

pub use frame::Frame;
pub use frame_row::FrameRow;
pub use latest::Latest;
pub use sampling::sample_element;
pub use start_table::StartTable;
