//! The rows of models that the host keeps.

use anim_names::ModelId;
use host_tables::RowTable;
use keyframe_effect::{ModelRow, RunState};
use std::alloc::AllocError;
use std::test::Fail;

// Model 1 is in the active commit and model 2 in the pending one, as both leave the active one.
fn leave(rows: &mut RowTable) -> Result<(), AllocError> {
    rows.reserve(2)?;
    rows.join_pending(ModelId(1));
    rows.join_pending(ModelId(2));
    rows.enter_active(ModelId(1));
    rows.leave_active(ModelId(1));
    rows.leave_active(ModelId(2));
    Ok(())
}

#[test]
fn the_row_of_a_model_that_left_both_commits_is_freed(rt: HostRuntime) -> Result<(), Fail> {
    let mut rows = RowTable::new(rt.alloc());
    leave(&mut rows)?;
    let model = ModelId(2);
    let kept = ModelRow {
        model,
        state: RunState::Waiting,
        in_active: false,
        in_pending: true,
    };
    assert!(rt; rows.len() == 1);
    assert!(rt; rows.row(ModelId(1)) == None);
    assert!(rt; rows.row(model) == Some(kept));
    Ok(())
}
