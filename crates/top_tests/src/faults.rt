//! Sources and sinks that fail: each call in turn.

use crate::calls::{Answer, expect_front, expect_number, in_pieces};
use crate::texts::{REFUSAL, REFUSED, REPORT};
use std::alloc::{AllocError, Global};
use std::process::Abort;
use std::test::Fail;
use test_scripts::{FADE, NOTHING, REVERSED};

// The last of these reads finds the end.
#[test]
fn each_read_that_fails_leaves_nothing_written(rt: HostRuntime) -> Result<(), Fail> {
    for (script, reads, number, text) in &[(FADE, 16u32, 0, REPORT), (REFUSED, 2, 3, REFUSAL)] {
        for failing in 0..*reads {
            expect_failing_read(&rt, rt.alloc(), script, failing, 4, "")?;
        }
        expect_failing_read(&rt, rt.alloc(), script, *reads, *number, text)?;
    }
    Ok(())
}

/// Where this read of a script fails, the program ends with this number and has written this.
fn expect_failing_read(
    rt: &impl Abort,
    alloc: Global,
    script: &str,
    failing: u32,
    number: u8,
    text: &str,
) -> Result<(), AllocError> {
    let calls = [failing];
    let bytes = script.as_bytes();
    let answer = in_pieces(alloc, "replay", bytes, (calls.as_slice(), &[]))?;
    expect_number(rt, &answer, number, text);
    Ok(())
}

#[test]
fn each_write_that_fails_took_a_front_of_the_text(rt: HostRuntime) -> Result<(), Fail> {
    for (words, script, writes, number, text) in &[
        ("replay", FADE, 13u32, 0, REPORT),
        ("replay", REFUSED, 2, 3, REFUSAL),
        ("gen 1", NOTHING, 27, 0, REVERSED),
    ] {
        for failing in 0..*writes {
            let answer = with_failing_write(rt.alloc(), words, script, failing)?;
            let length = 16usize.wrapping_mul(failing as usize);
            expect_front(&rt, &answer, 5, length, text);
        }
        let answer = with_failing_write(rt.alloc(), words, script, *writes)?;
        expect_number(&rt, &answer, *number, text);
    }
    Ok(())
}

fn with_failing_write(
    alloc: Global,
    words: &str,
    script: &str,
    failing: u32,
) -> Result<Answer, AllocError> {
    let calls = [failing];
    in_pieces(alloc, words, script.as_bytes(), (&[], calls.as_slice()))
}
