//! Tests of `run`. What a run prints depends on the order in which its lanes meet, so each test has a script with one
//! order, a gate that leaves one order, or a comparison with the replay of the order that was printed.

use crate::calls::{
    Answer, answered, expect_done, expect_front, expect_number, expect_steady, replayed,
    steady_source,
};
use crate::texts::{EMPTY_REPORT, with_line};
use anim_top::Status;
use edge_io::{HoldGate, IdleGate, MeetGate, SteadySink};
use std::alloc::{AllocError, Global};
use std::process::Abort;
use std::str::from_utf8;
use std::sync::Wait;
use std::test::Fail;
use std::thread::Threads;
use test_scripts::{FADE, NOTHING, TWO_COMMITS};

const THREE_TICKS: &str = "anim 1
main
compositor
tick 0
tick 0
tick 1125899906842624
word CCC
end
";

const THREE_TICKS_REPORT: &str = "report 1
word CCC
frame 0 commit 0
frame 0 commit 0
frame 1125899906842624 commit 0
heard 0
end
";

// The compositor pulls between the two commits.
const BETWEEN: &str = "report 1
word MMCMMCCC
frame 0 commit 1
element 1 100000 none
frame 1000 commit 1
element 1 100000 none
heard 0
end
";

// The compositor pulls before the first commit.
const BEFORE: &str = "report 1
word CMMMMCCC
frame 0 commit 0
frame 1000 commit 0
heard 0
end
";

#[test]
fn scripts_with_one_order_fill_a_steady_sink(rt: HostRuntime) -> Result<(), Fail> {
    for (words, script, report, length) in &[
        ("replay", NOTHING, EMPTY_REPORT, 28),
        ("run", NOTHING, EMPTY_REPORT, 28),
        ("run", THREE_TICKS, THREE_TICKS_REPORT, 96),
    ] {
        let mut source = steady_source(rt.alloc(), script)?;
        let mut sink = SteadySink::new(rt.alloc(), *length)?;
        expect_steady(&rt, rt.alloc(), words, &mut source, &mut sink, report)?;
    }
    Ok(())
}

#[test]
fn the_report_has_the_order_that_the_lanes_took(rt: HostRuntime) -> Result<(), Fail> {
    expect_order(&rt, rt.alloc(), 2, BETWEEN)?;
    expect_order(&rt, rt.alloc(), 0, BEFORE)?;
    Ok(())
}

/// Whether the lanes met where the compositor begins once main has come to this step, and this is the report.
fn expect_order<R: Threads + Wait + Sync + Abort>(
    rt: &R,
    alloc: Global,
    first: u32,
    report: &str,
) -> Result<(), AllocError> {
    let gate = HoldGate::new(first);
    let script = TWO_COMMITS.as_bytes();
    let answer = answered(rt, alloc, "run", script, (&[], &[]), &gate)?;
    assert!(rt; gate.met());
    assert!(rt; !gate.gave_up());
    expect_done(rt, &answer, report);
    Ok(())
}

#[test]
fn the_printed_word_replays_the_run(rt: HostRuntime) -> Result<(), Fail> {
    let long = twenty_elements(rt.alloc())?;
    expect_word_replays(&rt, rt.alloc(), TWO_COMMITS)?;
    expect_word_replays(&rt, rt.alloc(), long.as_str())?;
    Ok(())
}

/// Whether the lanes met, and the script replays in the order that the run printed.
fn expect_word_replays<R: Threads + Wait + Sync + Abort>(
    rt: &R,
    alloc: Global,
    script: &str,
) -> Result<(), AllocError> {
    let gate = MeetGate::new();
    let bytes = script.as_bytes();
    let answer = answered(rt, alloc, "run", bytes, (&[], &[]), &gate)?;
    assert!(rt; gate.met());
    assert!(rt; !gate.gave_up());
    expect_same_replayed(rt, alloc, script, &answer)
}

/// Whether a run was done, and the replay of its script in the order that it printed writes the same.
fn expect_same_replayed<R: Threads + Wait + Sync + Abort>(
    rt: &R,
    alloc: Global,
    script: &str,
    answer: &Answer,
) -> Result<(), AllocError> {
    assert!(rt; answer.status == Status::Done);
    let ordered = with_printed_word(alloc, script, answer.text.as_slice())?;
    let again = replayed(rt, alloc, ordered.as_bytes())?;
    expect_same(rt, &again, answer);
    Ok(())
}

fn expect_same(rt: &impl Abort, again: &Answer, answer: &Answer) {
    assert!(rt; again.status == Status::Done);
    assert!(rt; again.text.as_slice() == answer.text.as_slice());
}

/// The script with the word of this report, which is its second line.
fn with_printed_word(alloc: Global, script: &str, report: &[u8]) -> Result<String, AllocError> {
    let report = from_utf8(report).unwrap_or("");
    let word = report.lines().nth(1);
    with_line(alloc, script, script.lines().count().wrapping_sub(1), word)
}

/// Twenty elements that fade in and slide, each pair of models in a group of its own; 60 ticks, two commits, one drain.
fn twenty_elements(alloc: Global) -> Result<String, AllocError> {
    let mut text = String::new(alloc);
    push_main(&mut text)?;
    push_compositor(&mut text)?;
    push_word(&mut text)?;
    Ok(text)
}

fn push_main(text: &mut String) -> Result<(), AllocError> {
    text.push_str("anim 1\nmain\ntimeline 1 0\n")?;
    for i in 1..21u32 {
        push_element(text, i)?;
    }
    text.push_str("commit\ndrain\nopacity 20 500000\ncommit\n")
}

fn push_element(text: &mut String, i: u32) -> Result<(), AllocError> {
    let second = i.wrapping_mul(2);
    write!(text, "element {i} 1000000 none\n")?;
    push_model(text, second.wrapping_sub(1), i, "opacity")?;
    text.push_str("key 0 linear 0\nkey 400000 linear 1000000\n")?;
    push_model(text, second, i, "transform")?;
    text.push_str("key 0 ease-out translate:0:40000:0\nkey 400000 linear translate:0:0:0\n")
}

/// The line of a model of an element, in the element's own group.
fn push_model(text: &mut String, model: u32, i: u32, property: &str) -> Result<(), AllocError> {
    write!(
        text,
        "model {model} {i} {i} 1 {property} - 0 1000 0 normal both 1000 auto linear 2\n"
    )
}

fn push_compositor(text: &mut String) -> Result<(), AllocError> {
    text.push_str("compositor\npull\nactivate\n")?;
    push_ticks(text, 0, 40)?;
    text.push_str("pull\nactivate\n")?;
    push_ticks(text, 40, 60)
}

fn push_word(text: &mut String) -> Result<(), AllocError> {
    text.push_str("word ")?;
    for (letter, count) in [('M', 62), ('C', 42), ('M', 3), ('C', 22)] {
        for _ in 0..count {
            text.push(letter)?;
        }
    }
    text.push_str("\nend\n")
}

fn push_ticks(text: &mut String, first: u32, end: u32) -> Result<(), AllocError> {
    for k in first..end {
        write!(text, "tick {}\n", k.wrapping_mul(13700))?;
    }
    Ok(())
}

#[test]
fn a_script_that_is_refused_is_not_run(rt: HostRuntime) -> Result<(), Fail> {
    for (line, new, refusal) in &[
        (1, "anim 3", "refused: line 1: BadHeader\n"),
        (8, "drop-model 9", "refused: line 8: ModelUnknown\n"),
        (15, "word MMMMCCCC", "refused: line 15: BadWord\n"),
    ] {
        let script = with_line(rt.alloc(), FADE, *line, Some(*new))?;
        expect_refused_by(&rt, rt.alloc(), "run", script.as_bytes(), refusal)?;
        expect_refused_by(&rt, rt.alloc(), "replay", script.as_bytes(), refusal)?;
    }
    Ok(())
}

fn expect_refused_by<R: Threads + Wait + Sync + Abort>(
    rt: &R,
    alloc: Global,
    words: &str,
    script: &[u8],
    refusal: &str,
) -> Result<(), AllocError> {
    let answer = answered(rt, alloc, words, script, (&[], &[]), &IdleGate)?;
    expect_number(rt, &answer, 3, refusal);
    Ok(())
}

// The source gives all bytes in one call, and the end in the next. The sink takes 64 bytes a call, and the report has
// 96.
#[test]
fn a_run_ends_at_a_fault_of_the_outside(rt: HostRuntime) -> Result<(), Fail> {
    for (source, sink, number, taken) in &[
        (0, 9, 4, 0),
        (1, 9, 4, 0),
        (9, 0, 5, 0),
        (9, 1, 5, 64),
        (9, 9, 0, 96),
    ] {
        let (failing_source, failing_sink) = ([*source], [*sink]);
        let failing = (failing_source.as_slice(), failing_sink.as_slice());
        let bytes = THREE_TICKS.as_bytes();
        let answer = answered(&rt, rt.alloc(), "run", bytes, failing, &IdleGate)?;
        expect_front(&rt, &answer, *number, *taken, THREE_TICKS_REPORT);
    }
    Ok(())
}
