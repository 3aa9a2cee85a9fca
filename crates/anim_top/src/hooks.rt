//! The delegate and the evaluator that the program stores, as one value that both lanes can be given.

use anim_delegate::{Delegate, VerdictFunction};
use easing_fixed::{EasingFunction, Evaluator};

/// The two functions that the program hands to its parts: what becomes of a model after an event, and the value of an
/// easing.
///
/// Both types keep what their functions answer, so the report is the same whichever functions they are. Hooks keep
/// nothing of a run, and both lanes may use them at once where the functions may be shared. Main asks the delegate at
/// each event that it hears, and the compositor the evaluator at each value that an easing bends.
#[derive(Drop)]
pub struct Hooks<F: VerdictFunction, E: EasingFunction> {
    pub delegate: Delegate<F>,
    pub evaluator: Evaluator<E>,
}
