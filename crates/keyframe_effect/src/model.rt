//! The row of a keyframe model: its id, its state, and which of the two commits have it. When it changes is the
//! host's matter.

ghost use Rattle.std.specs.Prelude.{◌≡◌};
ghost use Rattle.keyframe_effect.specs.States.{after_done, after_finish, after_start, is_ended};

use crate::RunState;
use anim_names::ModelId;

/// A keyframe model of the active or the pending commit, with how far it is, and which of the two have it.
///
/// Each call changes the state alone. A call that is not for the state of the row leaves it, except for an abort.
#[derive(Clone, Copy, PartialEq, Eq)]
pub struct ModelRow {
    pub model: ModelId,
    pub state: RunState,
    /// Whether the active commit has the model.
    pub in_active: bool,
    /// Whether the pending commit has it.
    pub in_pending: bool,
}

impl ModelRow {
    /// A model that waits runs from now on. Its local time counts from `start`, in microseconds of its timeline, and
    /// `order` is the place of its start among all marks.
    pub fn start(&mut self, start: i64, order: u32)
        ensures { self.new ≡ record self.old { state = after_start self.old.state start order } }
    {
        self.state = self.state.after_start(start, order);
    }

    /// The iterations of a model that runs are over. It goes on until its group finishes.
    pub fn mark_done(&mut self)
        ensures { self.new ≡ record self.old { state = after_done self.old.state } }
    {
        self.state = self.state.after_done();
    }

    /// A model that runs or is done has finished with its group. It keeps its start, by which it is shown while the
    /// active commit has it.
    pub fn finish(&mut self)
        ensures { self.new ≡ record self.old { state = after_finish self.old.state } }
    {
        self.state = self.state.after_finish();
    }

    /// The model was aborted, started or not.
    pub fn abort(&mut self)
        ensures { self.new ≡ record self.old { state = RunState.Aborted } }
    {
        self.state = RunState::Aborted;
    }

    /// Whether the model finished or was aborted.
    pub fn is_ended(&self) -> bool
        ensures { result ≡ is_ended self.now.state }
    {
        self.state.is_ended()
    }
}
