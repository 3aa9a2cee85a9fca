//! Ids, lanes and events.

use anim_names::{
    AnimEvent, Entry, EntryKind, GroupId, Lane, ModelId, PROPERTIES, PerProperty, Property,
};

#[test]
fn an_id_is_its_number(rt: HostRuntime) {
    let id = ModelId(7);
    let again = id;
    assert!(rt; id == again);
    assert!(rt; id != ModelId(8));
    assert!(rt; id.0 == 7);
}

#[test]
fn names_compare_by_what_they_say(rt: HostRuntime) {
    let started = AnimEvent::Started {
        model: ModelId(1),
        group: GroupId(2),
        at: 3,
        start: -4,
    };
    let finished = AnimEvent::Finished {
        model: ModelId(1),
        at: 3,
    };
    assert!(rt; started != finished);
    let entry = Entry {
        lane: Lane::Main,
        upto: 1,
        kind: EntryKind::Publish { number: 1 },
    };
    let other = Entry {
        lane: Lane::Compositor,
        ..entry
    };
    assert!(rt; entry != other);
}

#[test]
fn each_property_has_its_own_value(rt: HostRuntime) {
    let values = PerProperty::every(1).with(Property::Transform, 2);
    assert!(rt; values.at(Property::Opacity) == 1);
    assert!(rt; values.at(Property::Transform) == 2);
    assert!(rt; PROPERTIES.len() == 2);
}
