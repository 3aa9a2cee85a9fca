//! The summary of a report: one line that counts what it has.

ghost use Rattle.std.specs.Prelude.{◌≡◌, ◌++◌, IfOk, OnOk, count_by, string_bytes};
ghost use Rattle.script_fields.specs.Fields.{further_fields};
ghost use Rattle.frame_report.specs.Summaries.{count_rows, is_start, is_finish, is_abort, last_count, told_fields, summary_text};

use crate::Report;
use anim_names::AnimEvent;
use element_samples::Frame;
use std::alloc::{AllocError, Global};

/// The line that says what a report has, for the script that was made from a number. How many bytes of text it has is
/// up to the caller, who has printed it or has not.
#[tactic(auto, unfolding(crate::specs::Summaries::summary_text))]
pub fn print_summary(
    alloc: Global,
    number: u32,
    report: &Report,
    bytes: usize,
) -> Result<Vec<u8>, AllocError>
    ensures { IfOk result (λ text. text.items ≡ summary_text number report.now bytes) }
{
    let mut out = String::new(alloc);
    let frames = report.frames();
    write!(out, "load {number}: frames {}", frames.len())?;
    write!(out, " rows {}", count_rows(frames))?;
    print_told(&mut out, report.events())?;
    writeln!(out, " heard {} bytes {bytes}", last_count(report.heard()))?;
    Ok(out.into_bytes())
}

// How many models started, finished and were aborted.
fn print_told(out: &mut String, events: &[AnimEvent]) -> Result<(), AllocError>
    ensures { OnOk result (string_bytes out.new ≡ string_bytes out.old ++ further_fields (told_fields events.now)) }
{
    let (started, finished) = (count_starts(events), count_finishes(events));
    let aborted = count_aborts(events);
    write!(
        out,
        " started {started} finished {finished} aborted {aborted}"
    )
}

// The rows of all frames. Each frame counts its own within 64 bits, so that the sum can't overflow.
fn count_rows(frames: &[Frame]) -> u128
    ensures { result ≡ count_rows frames.now }
{
    let mut count: u128 = 0;
    for frame in frames {
        count += frame.row_count() as u128;
    }
    count
}

fn count_starts(events: &[AnimEvent]) -> usize
    ensures { result ≡ count_by is_start events.now }
{
    events
        .iter()
        .filter(|event| matches!(event, AnimEvent::Started { .. }))
        .count()
}

fn count_finishes(events: &[AnimEvent]) -> usize
    ensures { result ≡ count_by is_finish events.now }
{
    events
        .iter()
        .filter(|event| matches!(event, AnimEvent::Finished { .. }))
        .count()
}

fn count_aborts(events: &[AnimEvent]) -> usize
    ensures { result ≡ count_by is_abort events.now }
{
    events
        .iter()
        .filter(|event| matches!(event, AnimEvent::Aborted { .. }))
        .count()
}

// The last of these counts.
fn last_count(counts: &[u32]) -> u32
    ensures { result ≡ last_count counts.now }
{
    counts.last().copied().unwrap_or(0)
}
