//! Reports, and how they are printed.

use anim_names::{AnimEvent, ElementId, GroupId, Lane, ModelId};
use element_samples::{Frame, FrameRow};
use frame_report::{Report, print_report, print_summary};
use std::alloc::Global;
use std::sync::Arc;
use std::test::Fail;
use transform_ops::{TransformList, TransformOp};
use tree_commit::Base;
use value_blend::Opacity;

// An element that shows an operation of each kind.
fn moved_row(alloc: Global) -> Result<FrameRow, Fail> {
    let operations = [
        TransformOp::Translate { x: 1, y: -2, z: 3 },
        TransformOp::Scale {
            x: 1_000_000,
            y: 0,
            z: -4,
        },
        TransformOp::Rotate {
            x: 0,
            y: 0,
            z: 1,
            angle: -90_000,
        },
        TransformOp::Skew { x: 5, y: -6 },
    ];
    Ok(FrameRow {
        element: ElementId(1),
        shown: Base {
            opacity: Opacity::new(250_000).ok_or("no opacity")?,
            transform: Arc::new(alloc, TransformList::new(alloc, &operations)?)?,
        },
    })
}

fn still_row(alloc: Global) -> Result<FrameRow, Fail> {
    Ok(FrameRow {
        element: ElementId(u32::MAX),
        shown: Base {
            opacity: Opacity::new(1_000_000).ok_or("no opacity")?,
            transform: Arc::new(alloc, TransformList::new(alloc, &[])?)?,
        },
    })
}

// A frame of no element, and a frame of two.
fn two_frames(alloc: Global) -> Result<Vec<Frame>, Fail> {
    let rows = vec![in alloc; moved_row(alloc)?, still_row(alloc)?]?;
    Ok(vec![in alloc;
        Frame::from_rows(0, 0, Vec::new(alloc)),
        Frame::from_rows(16_667, 2, rows),
    ]?)
}

// One event of each kind.
fn three_events(alloc: Global) -> Result<Vec<AnimEvent>, Fail> {
    Ok(vec![in alloc;
        AnimEvent::Started {
            model: ModelId(7),
            group: GroupId(8),
            at: 16_667,
            start: -5000,
        },
        AnimEvent::Finished {
            model: ModelId(9),
            at: 33_334,
        },
        AnimEvent::Aborted {
            model: ModelId(10),
            commit: 256,
        },
    ]?)
}

fn report_of_all_kinds(alloc: Global) -> Result<Report, Fail> {
    let word = vec![in alloc; Lane::Main, Lane::Compositor, Lane::Compositor]?;
    let (frames, events) = (two_frames(alloc)?, three_events(alloc)?);
    Ok(Report::new(word, frames, events, vec![in alloc; 0, 3]?))
}

const ALL_KINDS: &str = "report 1
word MCC
frame 0 commit 0
frame 16667 commit 2
element 1 250000 translate:1:-2:3 scale:1000000:0:-4 rotate:0:0:1:-90000 skew:5:-6
element 4294967295 1000000 none
started 7 group 8 at 16667 start -5000
finished 9 at 33334
aborted 10 commit 256
heard 0
heard 3
end
";

#[test]
fn a_line_of_each_kind_is_printed(rt: HostRuntime) -> Result<(), Fail> {
    let report = report_of_all_kinds(rt.alloc())?;
    let text = print_report(rt.alloc(), &report)?;
    assert!(rt; text.as_slice() == ALL_KINDS.as_bytes());
    Ok(())
}

#[test]
fn the_report_of_no_step_has_28_bytes(rt: HostRuntime) -> Result<(), Fail> {
    let alloc = rt.alloc();
    let heard = vec![in alloc; 0]?;
    let report = Report::new(Vec::new(alloc), Vec::new(alloc), Vec::new(alloc), heard);
    let text = print_report(alloc, &report)?;
    assert!(rt; text.len() == 28);
    assert!(rt; text.as_slice() == b"report 1\nword -\nheard 0\nend\n".as_slice());
    Ok(())
}

fn started(model: u32) -> AnimEvent {
    AnimEvent::Started {
        model: ModelId(model),
        group: GroupId(1),
        at: 16_667,
        start: 16_667,
    }
}

// Four frames with three rows, and two starts of which main heard at the end.
fn report_of_two_starts(alloc: Global) -> Result<Report, Fail> {
    let mut frames = vec![in alloc; Frame::from_rows(0, 0, Vec::new(alloc))]?;
    for i in 1..4 {
        let rows = vec![in alloc; still_row(alloc)?]?;
        frames.push(Frame::from_rows(i * 16_667, 1, rows))?;
    }
    let events = vec![in alloc; started(1), started(2)]?;
    Ok(Report::new(Vec::new(alloc), frames, events, vec![in alloc; 0, 0, 2]?))
}

const TWO_STARTS: &str =
    "load 1: frames 4 rows 3 started 2 finished 0 aborted 0 heard 2 bytes 309\n";

const EVENT_OF_EACH_KIND: &str =
    "load 7: frames 2 rows 2 started 1 finished 1 aborted 1 heard 3 bytes 0\n";

#[test]
fn a_summary_counts_what_a_report_has(rt: HostRuntime) -> Result<(), Fail> {
    let text = print_summary(rt.alloc(), 1, &report_of_two_starts(rt.alloc())?, 309)?;
    assert!(rt; text.as_slice() == TWO_STARTS.as_bytes());
    let text = print_summary(rt.alloc(), 7, &report_of_all_kinds(rt.alloc())?, 0)?;
    assert!(rt; text.as_slice() == EVENT_OF_EACH_KIND.as_bytes());
    Ok(())
}

#[test]
fn a_report_keeps_its_lists(rt: HostRuntime) -> Result<(), Fail> {
    let report = report_of_all_kinds(rt.alloc())?;
    assert!(rt; report.word() == [Lane::Main, Lane::Compositor, Lane::Compositor].as_slice());
    assert!(rt; report.frames().len() == 2);
    assert!(rt; report.events().len() == 3);
    assert!(rt; report.heard() == [0, 3].as_slice());
    Ok(())
}
