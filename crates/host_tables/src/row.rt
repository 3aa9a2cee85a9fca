//! What marks and frames have to do with the row of a model.

ghost use Rattle.std.specs.Prelude.{◌≡◌};
ghost use Rattle.host_tables.specs.Rows.{advanced_row};
ghost use Rattle.host_tables.specs.States.{advanced, shown_at};

use keyframe_effect::{ModelRow, RunState};
use run_rules::ModelMark;
use tree_commit::Shown;

/// What is shown of a model in this state: nothing before it started and once it was aborted.
pub fn shown(state: RunState) -> Option<Shown>
    ensures { result ≡ shown_at state }
{
    match state {
        RunState::Waiting => None,
        RunState::Running { start, order } => Some(Shown { start, order }),
        RunState::Done { start, order } => Some(Shown { start, order }),
        RunState::Finished { start, order } => Some(Shown { start, order }),
        RunState::Aborted => None,
    }
}

/// The state of a model of which this became in the mark of this index.
pub fn advanced(state: RunState, what: &ModelMark, order: u32) -> RunState
    ensures { result ≡ advanced state what.now order }
{
    match *what {
        ModelMark::Started(begun) => state.after_start(begun.start, order),
        ModelMark::Finished { .. } => state.after_finish(),
        ModelMark::Aborted { .. } => RunState::Aborted,
    }
}

/// The row of a model of which this became in the mark of this index.
pub(crate) fn advanced_row(row: ModelRow, what: &ModelMark, order: u32) -> ModelRow
    ensures { result ≡ advanced_row what.now order row }
{
    let mut row = row;
    match *what {
        ModelMark::Started(begun) => row.start(begun.start, order),
        ModelMark::Finished { .. } => row.finish(),
        ModelMark::Aborted { .. } => row.abort(),
    }
    row
}
