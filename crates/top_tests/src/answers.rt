//! What the program answers: reports, refusals, and what it makes from a number.

use crate::calls::{
    Answer, call, call_plainly, expect_done, expect_number, expect_steady, replayed, steady_source,
    written,
};
use crate::texts::{DROPPED_REPORT, EMPTY_REPORT, REPORT, with_line};
use anim_top::Status;
use edge_io::{IdleGate, SteadySink, SteadySource};
use frame_script::Cause;
use std::alloc::{AllocError, Global};
use std::process::Abort;
use std::sync::Wait;
use std::test::Fail;
use std::thread::Threads;
use test_scripts::{DROPPED_MODEL, FADE, NOTHING, REVERSED};
use tree_commit::EditRefusal;

#[test]
fn scripts_are_replayed(rt: HostRuntime) -> Result<(), Fail> {
    for (script, report) in &[
        (FADE, REPORT),
        (NOTHING, EMPTY_REPORT),
        (DROPPED_MODEL, DROPPED_REPORT),
    ] {
        expect_done(&rt, &replayed(&rt, rt.alloc(), script.as_bytes())?, report);
    }
    Ok(())
}

#[test]
fn the_first_bad_line_is_refused(rt: HostRuntime) -> Result<(), Fail> {
    for (line, new, cause, name) in &[
        (1, "anim 3", Cause::BadHeader, "BadHeader"),
        (4, "element 1 1000001 none", Cause::BadNumber, "BadNumber"),
        (
            6,
            "key 0 steps:1:jump-none 0",
            Cause::BadEasing,
            "BadEasing",
        ),
        (7, "key 0 linear 1000000", Cause::BadCurve, "BadCurve"),
        (
            8,
            "drop-model 9",
            Cause::Edit(EditRefusal::ModelUnknown),
            "ModelUnknown",
        ),
        (9, "compositors", Cause::BadLine, "BadLine"),
        (13, "tick 15999", Cause::TimeBack, "TimeBack"),
        (15, "word MMMMCCCC", Cause::BadWord, "BadWord"),
    ] {
        expect_refused(&rt, rt.alloc(), *line, new, *cause, name)?;
    }
    Ok(())
}

/// Whether the script with this line changed is refused there, for this cause.
fn expect_refused<R: Threads + Wait + Sync + Abort>(
    rt: &R,
    alloc: Global,
    line: u32,
    new: &str,
    cause: Cause,
    name: &str,
) -> Result<(), AllocError> {
    let script = with_line(alloc, FADE, line as usize, Some(new))?;
    let answer = replayed(rt, alloc, script.as_bytes())?;
    assert!(rt; answer.status == Status::Refused { line, cause });
    expect_refusal(rt, alloc, &answer, line, name)
}

fn expect_refusal(
    rt: &impl Abort,
    alloc: Global,
    answer: &Answer,
    line: u32,
    name: &str,
) -> Result<(), AllocError> {
    let refusal = format!(in alloc; "refused: line {line}: {name}\n")?;
    expect_number(rt, answer, 3, refusal.as_str());
    Ok(())
}

#[test]
fn a_script_that_is_too_long_is_refused_with_a_byte_left(rt: HostRuntime) -> Result<(), Fail> {
    let bytes = vec![in rt.alloc(); b'#'; (1 << 20) + 1]?;
    let answer = replayed(&rt, rt.alloc(), bytes.as_slice())?;
    expect_number(&rt, &answer, 3, "refused: line 0: TooLong\n");
    Ok(())
}

#[test]
fn made_scripts_are_written_and_loaded(rt: HostRuntime) -> Result<(), Fail> {
    for (words, text) in &[
        (
            "load 1",
            "load 1: frames 4 rows 3 started 2 finished 0 aborted 0 heard 2 bytes 309\n",
        ),
        ("gen 1", REVERSED),
    ] {
        expect_done(&rt, &written(&rt, rt.alloc(), words)?, text);
    }
    Ok(())
}

#[test]
fn any_delegate_and_any_evaluator_give_the_same_report(rt: HostRuntime) -> Result<(), Fail> {
    let script = written(&rt, rt.alloc(), "gen 5")?;
    let report = replayed(&rt, rt.alloc(), script.text.as_slice())?;
    expect_replayed_plainly(
        &rt,
        rt.alloc(),
        script.text.as_slice(),
        report.text.as_slice(),
    )?;
    Ok(())
}

fn expect_replayed_plainly(
    rt: &impl Abort,
    alloc: Global,
    script: &[u8],
    report: &[u8],
) -> Result<(), AllocError> {
    let mut source = SteadySource::new(script.to_vec(alloc)?);
    let mut sink = SteadySink::new(alloc, report.len())?;
    let status = call_plainly(alloc, "replay", &mut source, &mut sink)?;
    assert!(rt; status == Status::Done);
    assert!(rt; sink.taken() == report);
    Ok(())
}

#[test]
fn arguments_that_are_no_command_touch_nothing(rt: HostRuntime) -> Result<(), Fail> {
    let mut source = steady_source(rt.alloc(), FADE)?;
    let mut sink = SteadySink::new(rt.alloc(), 201)?;
    for words in &[
        "", "replay x", "gen", "gen 0", "gen 201", "gen 01", "gen +1", "load 1 2", "Run", "run x",
    ] {
        expect_usage(&rt, rt.alloc(), words, &mut source, &mut sink)?;
    }
    expect_steady(&rt, rt.alloc(), "replay", &mut source, &mut sink, REPORT)?;
    Ok(())
}

fn expect_usage<R: Threads + Wait + Sync + Abort>(
    rt: &R,
    alloc: Global,
    words: &str,
    source: &mut SteadySource,
    sink: &mut SteadySink,
) -> Result<(), AllocError> {
    let status = call(rt, alloc, words, source, sink, &IdleGate)?;
    assert_eq!(rt; status.number(), 2, "for {words:?}");
    assert!(rt; sink.taken().is_empty());
    Ok(())
}
