//! Scripts that are read, and scripts that are refused: at which line, and why.

use anim_names::{Lane, LimitName};
use frame_script::{Cause, MOST_BYTES, Script, ScriptFault};
use script_reader::read_script;
use std::alloc::{AllocError, Global};
use std::process::Abort;
use std::test::Fail;
use test_scripts::{FADE, TWO_COMMITS};
use tree_commit::EditRefusal;

/// The first lines of the fade up to a number, a text as often as it says, and the lines of the fade behind a number.
#[derive(Clone, Copy)]
struct Change(usize, &'static str, usize, usize);

/// The fade with a change: at which line it is refused, and why.
const REFUSED: &[(Change, u32, Cause)] = &[
    (Change(0, "", 0, 16), 1, Cause::MissingPart),
    (Change(0, "anim 3\n", 1, 1), 1, Cause::BadHeader),
    (Change(8, "compositors\n", 1, 9), 9, Cause::BadLine),
    (Change(4, "model 1 1 ", 1, 16), 5, Cause::BadLine),
    (
        Change(3, "element 1 1000001 none\n", 1, 4),
        4,
        Cause::BadNumber,
    ),
    (Change(2, "timeline 01 0\n", 1, 3), 3, Cause::BadNumber),
    (
        Change(6, "key 0 linear 1000000\n", 1, 7),
        7,
        Cause::BadCurve,
    ),
    (
        Change(
            4,
            "model 1 1 1 1 opacity - 0 infinite 0 normal none -1000 auto linear 2\n",
            1,
            5,
        ),
        5,
        Cause::BadTiming,
    ),
    (
        Change(5, "key 0 steps:1:jump-none 0\n", 1, 6),
        6,
        Cause::BadEasing,
    ),
    (Change(12, "tick 15999\n", 1, 13), 13, Cause::TimeBack),
    (Change(14, "word MMMMCCCC\n", 1, 15), 15, Cause::BadWord),
    (Change(6, "", 0, 16), 7, Cause::MissingPart),
    (
        Change(7, "drop-model 9\n", 1, 8),
        8,
        Cause::Edit(EditRefusal::ModelUnknown),
    ),
    (
        Change(
            8,
            "model 2 1 1 1 transform - 0 1000 0 normal none 1000 auto linear 2\n",
            1,
            8,
        ),
        9,
        Cause::Edit(EditRefusal::GroupClosed),
    ),
    (
        Change(
            4,
            "model 1 1 1 2 opacity - 0 1000 0 normal none 1000 auto linear 2\n",
            1,
            5,
        ),
        5,
        Cause::Edit(EditRefusal::TimelineUnknown),
    ),
    (
        Change(7, "commit\n", 257, 8),
        264,
        Cause::Edit(EditRefusal::Limit(LimitName::Commits)),
    ),
    (Change(0, "#", MOST_BYTES + 1, 16), 0, Cause::TooLong),
    // A lane of 10,000 steps takes no more, whichever lane it is.
    (
        Change(7, "drain\n", 10_000, 8),
        10_005,
        Cause::Edit(EditRefusal::Limit(LimitName::Steps)),
    ),
    (
        Change(11, "pull\n", 10_000, 16),
        10_010,
        Cause::Edit(EditRefusal::Limit(LimitName::Steps)),
    ),
    // Where two things are wrong, the first in order decides.
    (
        Change(3, "element 1 0 none translate:0:0:0\n", 1, 4),
        4,
        Cause::BadLine,
    ),
    (
        Change(3, "element 1 0 translate:x:0:0 none\n", 1, 4),
        4,
        Cause::BadNumber,
    ),
    (
        Change(
            3,
            "element 1 0 skew:0:0 skew:0:0 skew:0:0 skew:0:0 skew:0:0 skew:0:0 skew:0:0 skew:0:0 skew:0:0\n",
            1,
            4,
        ),
        4,
        Cause::BadLine,
    ),
    (
        Change(
            4,
            "model 1 1 1 1 opacity - 0 1000 0 normal none 1000 auto linear 17\n",
            1,
            5,
        ),
        5,
        Cause::BadCurve,
    ),
    (
        Change(
            4,
            "model 1 1 1 1 opacity - 0 1000 0 normal none 1000 auto linear x\n",
            1,
            5,
        ),
        5,
        Cause::BadNumber,
    ),
    (Change(5, "key x linear 0 0\n", 1, 6), 6, Cause::BadLine),
    // Lines that are skipped are counted, also amid the keys of a model.
    (
        Change(5, "# not a key\n\nkey 0 linear 0 0\n", 1, 6),
        8,
        Cause::BadLine,
    ),
    (Change(0, "\n", 1_000_000, 1), 1_000_001, Cause::BadHeader),
    // Behind the end may stand nothing but lines that are skipped.
    (Change(16, "\n# the end\nend", 1, 16), 19, Cause::BadLine),
    // A carriage return is a byte of its field.
    (Change(0, "anim 1\r\n", 1, 1), 1, Cause::BadHeader),
    // Lines of a megabyte: one field, nothing but empty fields, and a word.
    (Change(8, "x", 1_000_000, 16), 9, Cause::BadLine),
    (Change(8, " ", 1_000_000, 16), 9, Cause::BadLine),
    (Change(11, "tick ", 200_000, 16), 12, Cause::BadLine),
];

fn push_lines_before(out: &mut String, count: usize) -> Result<(), AllocError> {
    for line in FADE.lines().take(count) {
        push_line(out, line)?;
    }
    Ok(())
}

fn push_lines_behind(out: &mut String, count: usize) -> Result<(), AllocError> {
    for line in FADE.lines().skip(count) {
        push_line(out, line)?;
    }
    Ok(())
}

fn push_line(out: &mut String, line: &str) -> Result<(), AllocError> {
    out.push_str(line)?;
    out.push('\n')
}

fn push_times(out: &mut String, text: &str, times: usize) -> Result<(), AllocError> {
    for _ in 0..times {
        out.push_str(text)?;
    }
    Ok(())
}

fn changed(alloc: Global, change: Change) -> Result<String, AllocError> {
    let Change(before, text, times, behind) = change;
    let mut out = String::new(alloc);
    push_lines_before(&mut out, before)?;
    push_times(&mut out, text, times)?;
    push_lines_behind(&mut out, behind)?;
    Ok(out)
}

// At which line bytes are refused, and why.
fn fault(alloc: Global, bytes: &[u8]) -> Option<ScriptFault> {
    read_script(alloc, bytes).err()
}

// At which line the fade with a change is refused, and why.
fn fault_of(alloc: Global, change: Change) -> Result<Option<ScriptFault>, AllocError> {
    let text = changed(alloc, change)?;
    Ok(fault(alloc, text.as_bytes()))
}

#[test]
fn the_first_wrong_line_is_refused(rt: HostRuntime) -> Result<(), Fail> {
    for (change, line, cause) in REFUSED {
        let found = fault_of(rt.alloc(), *change)?;
        let refused = Some(ScriptFault::Refused {
            line: *line,
            cause: *cause,
        });
        assert!(rt; found == refused, "for {}", change.1);
    }
    Ok(())
}

/// A comment of this number of bytes, then the fade, and no line feed at the end.
fn commented(alloc: Global, count: usize) -> Result<String, AllocError> {
    let mut text = String::new(alloc);
    for _ in 0..count {
        text.push('#')?;
    }
    for line in FADE.lines() {
        text.push('\n')?;
        text.push_str(line)?;
    }
    Ok(text)
}

#[test]
fn the_longest_script_is_read(rt: HostRuntime) -> Result<(), Fail> {
    let own = commented(rt.alloc(), 0)?.len();
    let text = commented(rt.alloc(), MOST_BYTES.saturating_sub(own))?;
    assert!(rt; text.len() == MOST_BYTES);
    let script = read_script(rt.alloc(), text.as_bytes())?;
    expect_lists(&rt, &script, 4, 5);
    let text = commented(rt.alloc(), (MOST_BYTES + 1).saturating_sub(own))?;
    let long = Some(ScriptFault::Refused {
        line: 0,
        cause: Cause::TooLong,
    });
    assert!(rt; fault(rt.alloc(), text.as_bytes()) == long);
    Ok(())
}

const MAIN: Lane = Lane::Main;

const COMPOSITOR: Lane = Lane::Compositor;

/// Both commits before the first pull.
const LATE: [Lane; 8] = [
    MAIN, MAIN, MAIN, MAIN, COMPOSITOR, COMPOSITOR, COMPOSITOR, COMPOSITOR,
];

/// The first commit is drawn before the second is made.
const EARLY: [Lane; 8] = [
    MAIN, MAIN, COMPOSITOR, COMPOSITOR, MAIN, MAIN, COMPOSITOR, COMPOSITOR,
];

fn expect_lists(rt: &impl Abort, script: &Script, main: usize, compositor: usize) {
    assert!(rt; script.main().len() == main);
    assert!(rt; script.compositor().len() == compositor);
    assert!(rt; script.word().len() == main + compositor);
}

#[test]
fn a_word_is_replaced_by_one_of_the_same_lanes(rt: HostRuntime) -> Result<(), Fail> {
    let mut script = read_script(rt.alloc(), TWO_COMMITS.as_bytes())?;
    expect_lists(&rt, &script, 4, 4);
    assert!(rt; script.word() == LATE.as_slice());
    assert!(rt; script.replace_word(&EARLY)?);
    assert!(rt; script.word() == EARLY.as_slice());
    assert!(rt; !script.replace_word(&[MAIN, MAIN, MAIN, MAIN])?);
    assert!(rt; script.word() == EARLY.as_slice());
    assert!(rt; script.replace_word(&LATE)?);
    assert!(rt; script.word() == LATE.as_slice());
    Ok(())
}
