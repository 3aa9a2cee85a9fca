//! What a commit and a frame hold.

use crate::both::{Answer, Both, Edited, expect_rows};
use crate::samples::{self, Names};
use anim_names::{ElementId, ModelId, Property, TimelineId};
use element_samples::{Frame, FrameRow};
use std::process::Abort;
use std::sync::Arc;
use std::test::Fail;
use tree_commit::{Base, Commit};

#[test]
fn the_first_commit_is_empty(rt: HostRuntime) -> Result<(), Fail> {
    let commit = Commit::empty(rt.alloc())?;
    assert!(rt; commit.number() == 0);
    assert!(rt; commit.element_count() == 0);
    assert!(rt; commit.model_count() == 0);
    assert!(rt; !commit.has_element(ElementId(3)));
    Ok(())
}

const EDITS: [(Edited, Answer); 7] = [
    (Edited::AddElement(1), Answer::Made),
    (Edited::AddElement(2), Answer::Made),
    (Edited::AddElement(3), Answer::Made),
    (Edited::AddTimeline(1), Answer::Made),
    (
        Edited::AddModel(Names(7, 1, 1, 1), None, Property::Opacity),
        Answer::Made,
    ),
    (Edited::RemoveElement(1), Answer::Made),
    (Edited::SetOpacity(2), Answer::Made),
];

#[test]
fn a_commit_keeps_the_order_of_what_stays(rt: HostRuntime) -> Result<(), Fail> {
    let mut both = Both::new(rt.alloc())?;
    expect_rows(&rt, rt.alloc(), &mut both, &EDITS)?;
    let commit = both.commit(&rt)?;
    expect_tables(&rt, &commit);
    expect_model(&rt, &commit)?;
    expect_elements(&rt, &commit);
    Ok(())
}

// Commit 1 with elements 2 and 3, model 7 and timeline 1.
fn expect_tables(rt: &impl Abort, commit: &Commit) {
    assert!(rt; commit.number() == 1);
    assert!(rt; commit.has_element(ElementId(2)));
    assert!(rt; !commit.has_element(ElementId(1)));
    assert!(rt; commit.has_model(ModelId(7)));
    assert!(rt; commit.place_of(ModelId(7)) == Some(0));
    assert!(rt; commit.place_of(ModelId(8)).is_none());
    assert!(rt; commit.timeline(TimelineId(2)).is_none());
}

fn expect_model(rt: &impl Abort, commit: &Commit) -> Result<(), Fail> {
    assert!(rt; commit.model_count() == 1);
    assert!(rt; commit.model_at(0).id() == ModelId(7));
    let timeline = commit.timeline(TimelineId(1)).ok_or("no timeline")?;
    assert!(rt; timeline.zero() == 0);
    Ok(())
}

// Element 2 is half opaque, and element 3 stands behind it.
fn expect_elements(rt: &impl Abort, commit: &Commit) {
    assert!(rt; commit.element_count() == 2);
    let (first, base) = commit.element_at(0);
    assert!(rt; first == ElementId(2));
    assert!(rt; base.opacity.get() == 500_000);
    let (second, _) = commit.element_at(1);
    assert!(rt; second == ElementId(3));
}

#[test]
fn a_frame_has_its_rows(rt: HostRuntime) -> Result<(), Fail> {
    let row = FrameRow {
        element: ElementId(3),
        shown: Base {
            opacity: samples::opacity(250_000)?,
            transform: Arc::new(rt.alloc(), samples::moved(rt.alloc())?)?,
        },
    };
    let frame = Frame::from_rows(16_000, 2, vec![in rt.alloc(); row]?);
    expect_frame(&rt, &frame);
    Ok(())
}

fn expect_frame(rt: &impl Abort, frame: &Frame) {
    assert!(rt; frame.time() == 16_000);
    assert!(rt; frame.commit() == 2);
    assert!(rt; frame.row_count() == 1);
    assert!(rt; frame.row(0).element == ElementId(3));
}
