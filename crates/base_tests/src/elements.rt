//! Which elements are there, and what blocks their properties.

use crate::builders::block;
use anim_names::{ElementId, GroupId, Property, Tree};
use element_anims::ElementAnims;
use std::process::Abort;
use std::test::Fail;

fn put(rt: &impl Abort, table: &mut ElementAnims, tree: Tree, element: u32) {
    assert!(rt; table.spare() > 0);
    table.set_present(tree, ElementId(element), true);
}

#[test]
fn an_element_is_in_the_trees_that_it_was_put_in(rt: HostRuntime) -> Result<(), Fail> {
    let mut table = ElementAnims::new(rt.alloc())?;
    table.reserve(3)?;
    put(&rt, &mut table, Tree::Pending, 1);
    put(&rt, &mut table, Tree::Active, 2);
    assert!(rt; table.present(Tree::Pending, ElementId(1)));
    assert!(rt; !table.present(Tree::Active, ElementId(1)));
    assert!(rt; table.present(Tree::Active, ElementId(2)));
    table.set_present(Tree::Pending, ElementId(1), false);
    assert!(rt; !table.present(Tree::Pending, ElementId(1)));
    Ok(())
}

#[test]
fn a_property_is_blocked_until_it_is_freed(rt: HostRuntime) -> Result<(), Fail> {
    let mut table = ElementAnims::new(rt.alloc())?;
    table.reserve(3)?;
    block(&rt, &mut table, 1, Property::Opacity, 7);
    block(&rt, &mut table, 1, Property::Transform, 8);
    assert!(rt; table.blocked_by(ElementId(1), Property::Opacity) == Some(GroupId(7)));
    table.unblock(ElementId(1), Property::Opacity);
    assert!(rt; table.blocked_by(ElementId(1), Property::Opacity).is_none());
    assert!(rt; table.blocked_by(ElementId(1), Property::Transform) == Some(GroupId(8)));
    table.unblock_all(ElementId(1), GroupId(7));
    assert!(rt; table.blocked_by(ElementId(1), Property::Transform) == Some(GroupId(8)));
    table.unblock_all(ElementId(1), GroupId(8));
    assert!(rt;
        table
            .blocked_by(ElementId(1), Property::Transform)
            .is_none()
    );
    Ok(())
}
