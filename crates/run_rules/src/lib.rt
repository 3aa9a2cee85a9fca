//! The rules of runs, as definitions alone: scripts, the marks that the compositor makes, frames, and what each step of
//! the two lanes makes of their states.
//!
//! A run is read off whole commits and one list of marks. What it reports is defined here, step by step, for any word of
//! the two lanes. No code that follows the rules is here but the types that the rules speak of.
#![tactic(auto)]

pub mod compositor_step;
pub mod main_step;
pub mod mark;

pub use compositor_step::CompositorStep;
pub use main_step::MainStep;
pub use mark::{Begun, Mark, ModelMark};
