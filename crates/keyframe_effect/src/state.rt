//! The states of a keyframe model from waiting to its end, and the state that follows after a start, a finish or an
//! abort.

ghost use Rattle.std.specs.Prelude.{◌≡◌};
ghost use Rattle.keyframe_effect.specs.States.{after_done, after_finish, after_start, is_ended, is_unfinished, is_waiting};

/// How far a keyframe model is.
#[derive(Clone, Copy, PartialEq, Eq)]
pub enum RunState {
    /// It has not started.
    Waiting,
    /// It started. Its local time counts from `start`, in microseconds of its timeline, which may be negative; `order`
    /// is the place of its start among all marks.
    Running { start: i64, order: u32 },
    /// Its own iterations are over, and it waits for its group to finish.
    Done { start: i64, order: u32 },
    /// It finished with its group.
    Finished { start: i64, order: u32 },
    /// It was aborted as a commit took the place of another.
    Aborted,
}

impl RunState {
    /// Whether the model has neither started nor ended.
    pub fn is_waiting(self) -> bool
        ensures { result ≡ is_waiting self }
    {
        match self {
            RunState::Waiting => true,
            RunState::Running { .. } | RunState::Done { .. } => false,
            RunState::Finished { .. } | RunState::Aborted => false,
        }
    }

    /// Whether the model has started and not ended.
    pub fn is_unfinished(self) -> bool
        ensures { result ≡ is_unfinished self }
    {
        match self {
            RunState::Waiting => false,
            RunState::Running { .. } | RunState::Done { .. } => true,
            RunState::Finished { .. } | RunState::Aborted => false,
        }
    }

    /// Whether the model finished or was aborted.
    pub fn is_ended(self) -> bool
        ensures { result ≡ is_ended self }
    {
        match self {
            RunState::Waiting | RunState::Running { .. } | RunState::Done { .. } => false,
            RunState::Finished { .. } | RunState::Aborted => true,
        }
    }

    /// The state of a model that waits, as it starts; any other stays. Its local time counts from `start`, in
    /// microseconds of its timeline, and `order` is the place of its start among all marks.
    pub fn after_start(self, start: i64, order: u32) -> RunState
        ensures { result ≡ after_start self start order }
    {
        match self {
            RunState::Waiting => RunState::Running { start, order },
            other => other,
        }
    }

    /// The state of a model that runs, as its iterations are found over; any other stays.
    pub fn after_done(self) -> RunState
        ensures { result ≡ after_done self }
    {
        match self {
            RunState::Running { start, order } => RunState::Done { start, order },
            other => other,
        }
    }

    /// The state of a model that runs or is done, as its group finishes; any other stays.
    pub fn after_finish(self) -> RunState
        ensures { result ≡ after_finish self }
    {
        match self {
            RunState::Running { start, order } => RunState::Finished { start, order },
            RunState::Done { start, order } => RunState::Finished { start, order },
            other => other,
        }
    }
}
