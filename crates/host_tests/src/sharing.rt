//! Types that threads may share. The check of the types is the test.

use anim_host::AnimHost;
use host_tables::{CommitGroups, GroupTable, MarkList, RowTable};

fn is_shared<T: Send + Sync>() {}

#[test]
fn the_host_and_its_tables_are_shared() {
    is_shared::<AnimHost>();
    is_shared::<RowTable>();
    is_shared::<GroupTable>();
    is_shared::<CommitGroups>();
    is_shared::<MarkList>();
}
