//! What several tests build.

use anim_names::{ElementId, GroupId, Property};
use curve_keys::Key;
use easing_fixed::Easing;
use element_anims::ElementAnims;
use std::process::Abort;
use std::test::Fail;
use value_blend::Opacity;

pub fn opacity(millionths: i64) -> Result<Opacity, Fail> {
    Ok(Opacity::new(millionths).ok_or("no opacity")?)
}

pub fn key<V>(time: u64, easing: Easing, value: V) -> Key<V> {
    Key {
        time,
        easing,
        value,
    }
}

/// Blocks a free property of an element by a group.
pub fn block(
    rt: &impl Abort,
    table: &mut ElementAnims,
    element: u32,
    property: Property,
    group: u32,
) {
    let element = ElementId(element);
    assert!(rt; table.spare() > 0 && table.blocked_by(element, property).is_none());
    table.block(element, property, GroupId(group));
}
