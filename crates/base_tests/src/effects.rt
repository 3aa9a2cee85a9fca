//! How far a model has come, and whether a group is ready.

use crate::builders::block;
use anim_names::{ElementId, GroupId, ModelId, PerProperty, Property, Tree};
use element_anims::ElementAnims;
use keyframe_effect::{GroupRow, ModelRow, RunState};
use std::process::Abort;
use std::test::Fail;

const WAITING: ModelRow = ModelRow {
    model: ModelId(1),
    state: RunState::Waiting,
    in_active: true,
    in_pending: false,
};

// How far the row is after a start at -5 of order 9, then found done, then finished.
#[test]
fn a_model_starts_is_done_and_finishes(rt: HostRuntime) -> Result<(), Fail> {
    let (start, order) = (-5, 9);
    let mut row = WAITING;
    row.start(start, order);
    assert!(rt; row.state == RunState::Running { start, order });
    row.mark_done();
    assert!(rt; row.state == RunState::Done { start, order });
    assert!(rt; !row.is_ended());
    row.finish();
    assert!(rt; row.state == RunState::Finished { start, order });
    assert!(rt; row.is_ended());
    Ok(())
}

#[test]
fn a_model_that_waits_is_aborted(rt: HostRuntime) -> Result<(), Fail> {
    let mut row = WAITING;
    assert!(rt; !row.is_ended());
    row.abort();
    assert!(rt; row.state == RunState::Aborted);
    assert!(rt; row.is_ended());
    Ok(())
}

// A group of one model, which waits and animates the opacity.
fn row() -> GroupRow {
    GroupRow {
        group: GroupId(2),
        element: ElementId(3),
        waiting: 1,
        unfinished: 0,
        animates: PerProperty::every(false).with(Property::Opacity, true),
    }
}

fn expect_ready(rt: &impl Abort, table: &ElementAnims) {
    assert!(rt; row().ready(table, false));
    assert!(rt; !row().ready(table, true));
    let none_waits = GroupRow {
        waiting: 0,
        ..row()
    };
    assert!(rt; !none_waits.ready(table, false));
}

#[test]
fn a_group_is_ready_where_its_element_is_there_and_free(rt: HostRuntime) -> Result<(), Fail> {
    let mut table = ElementAnims::new(rt.alloc())?;
    table.reserve(8)?;
    assert!(rt; !row().ready(&table, false));
    assert!(rt; table.spare() > 0);
    table.set_present(Tree::Active, ElementId(3), true);
    expect_ready(&rt, &table);
    block(&rt, &mut table, 3, Property::Transform, 7);
    expect_ready(&rt, &table);
    block(&rt, &mut table, 3, Property::Opacity, 7);
    assert!(rt; !row().ready(&table, false));
    let own = GroupRow {
        group: GroupId(7),
        ..row()
    };
    assert!(rt; own.ready(&table, false));
    Ok(())
}
