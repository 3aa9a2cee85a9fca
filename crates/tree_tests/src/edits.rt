//! Edits one after the other, each made or refused for its first reason.

use crate::both::{Answer, Both, Edited, expect, expect_rows};
use crate::samples::Names;
use anim_names::limit::MOST_TIMELINES;
use anim_names::{ElementId, GroupId, LimitName, ModelId, Property, TimelineId};
use std::test::Fail;
use tree_commit::{EditBook, EditRefusal};

const FADE: Property = Property::Opacity;

const SLIDE: Property = Property::Transform;

const ROWS: [(Edited, Answer); 20] = [
    (Edited::AddElement(1), Answer::Made),
    (
        Edited::AddElement(1),
        Answer::Refused(EditRefusal::ElementThere),
    ),
    (
        Edited::SetOpacity(2),
        Answer::Refused(EditRefusal::ElementNotThere),
    ),
    (
        Edited::SetTransform(2),
        Answer::Refused(EditRefusal::ElementNotThere),
    ),
    (
        Edited::RemoveElement(2),
        Answer::Refused(EditRefusal::ElementNotThere),
    ),
    (Edited::SetTransform(1), Answer::Made),
    (Edited::AddTimeline(1), Answer::Made),
    (
        Edited::AddTimeline(1),
        Answer::Refused(EditRefusal::TimelineThere),
    ),
    (
        Edited::AddModel(Names(1, 1, 1, 2), None, FADE),
        Answer::Refused(EditRefusal::TimelineUnknown),
    ),
    (
        Edited::AddModel(Names(1, 1, 1, 1), None, FADE),
        Answer::Made,
    ),
    (
        Edited::AddModel(Names(1, 2, 1, 1), None, FADE),
        Answer::Refused(EditRefusal::ModelIdUsed),
    ),
    (
        Edited::AddModel(Names(2, 1, 1, 1), None, FADE),
        Answer::Refused(EditRefusal::GroupMixed),
    ),
    (
        Edited::AddModel(Names(2, 1, 2, 1), None, SLIDE),
        Answer::Refused(EditRefusal::GroupMixed),
    ),
    (
        Edited::AddModel(Names(2, 1, 1, 1), Some(5), SLIDE),
        Answer::Refused(EditRefusal::GroupMixed),
    ),
    (
        Edited::RemoveModel(2),
        Answer::Refused(EditRefusal::ModelUnknown),
    ),
    (
        Edited::AddModel(Names(3, 1, 1, 1), None, SLIDE),
        Answer::Made,
    ),
    (Edited::Commit, Answer::Made),
    (
        Edited::AddModel(Names(2, 1, 1, 1), None, SLIDE),
        Answer::Refused(EditRefusal::GroupClosed),
    ),
    (Edited::RemoveModel(1), Answer::Made),
    (Edited::RemoveModel(1), Answer::Gone),
];

#[test]
fn a_tree_and_a_book_answer_alike(rt: HostRuntime) -> Result<(), Fail> {
    let mut both = Both::new(rt.alloc())?;
    expect_rows(&rt, rt.alloc(), &mut both, &ROWS)
}

#[test]
fn a_timeline_is_one_too_many(rt: HostRuntime) -> Result<(), Fail> {
    let mut both = Both::new(rt.alloc())?;
    for id in 1..=MOST_TIMELINES {
        expect(
            &rt,
            rt.alloc(),
            &mut both,
            Edited::AddTimeline(id),
            Answer::Made,
        )?;
    }
    let limit = Answer::Refused(EditRefusal::Limit(LimitName::Timelines));
    expect(&rt, rt.alloc(), &mut both, Edited::AddTimeline(65), limit)
}

#[test]
fn a_model_is_judged_before_its_keys(rt: HostRuntime) -> Result<(), Fail> {
    let book = EditBook::new(rt.alloc())?;
    let (id, group) = (ModelId(1), GroupId(1));
    let (element, timeline) = (ElementId(1), TimelineId(1));
    let answer = book.check_model(id, group, element, timeline, None, FADE);
    assert!(rt; answer == Err(EditRefusal::TimelineUnknown));
    Ok(())
}
