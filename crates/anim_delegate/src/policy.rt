//! The policies of models, and the table that gives the verdict on an event for each of them.

ghost use Rattle.std.specs.Prelude.{◌≡◌};
ghost use Rattle.anim_delegate.specs.Table.{verdict_on};

use crate::Verdict;
use anim_names::AnimEvent;

/// After which event main drops a model by itself. A script may drop a model at any time, whatever its policy.
#[derive(Clone, Copy, PartialEq, Eq)]
pub enum Policy {
    /// After it finished or was aborted.
    Auto,
    /// After it finished. An aborted one stays.
    FinishedOnly,
    /// Never.
    Manual,
}

impl Policy {
    /// What becomes of a model of this policy once main hears the event: the table, as a function that a
    /// [`crate::Delegate`] can hold.
    pub fn verdict_on(self, event: &AnimEvent) -> Verdict
        ensures { result ≡ verdict_on self event.now }
    {
        match (self, event) {
            (_, AnimEvent::Started { .. }) => Verdict::Keep,
            (Policy::Auto | Policy::FinishedOnly, AnimEvent::Finished { .. }) => Verdict::Retire,
            (Policy::Auto, AnimEvent::Aborted { .. }) => Verdict::Retire,
            (Policy::FinishedOnly, AnimEvent::Aborted { .. }) => Verdict::Keep,
            (Policy::Manual, _) => Verdict::Keep,
        }
    }
}
