//! Printing a report: a line for each frame, row, event and heard count, pushed into one text.

ghost use Rattle.std.specs.Prelude.{◌≡◌, ◌++◌, ◌∷◌, [], IfOk, OnOk, codes, string_bytes};
ghost use Rattle.std.specs.List.{flat_map};
ghost use Rattle.script_fields.specs.Printed.{word_text};
ghost use Rattle.element_samples.specs.Views.{drawn_row_of};
ghost use Rattle.frame_report.specs.Texts.{line, row_line, frame_lines, event_line, heard_line, report_text};

use crate::Report;
use anim_names::{AnimEvent, Lane};
use element_samples::{Frame, FrameRow};
use script_fields::printed::{print_list, print_word};
use std::alloc::{AllocError, Global};

/// The text of a report: times in microseconds, opacities in millionths, each line with a line feed at its end.
///
/// It is written in one pass, into one text that doubles where it is full.
#[tactic(auto, unfolding(crate::specs::Texts::report_text))]
pub fn print_report(alloc: Global, report: &Report) -> Result<Vec<u8>, AllocError>
    ensures { IfOk result (λ text. text.items ≡ report_text report.now) }
{
    let mut out = String::new(alloc);
    print_head(&mut out, report.word())?;
    print_frames(&mut out, report.frames())?;
    print_events(&mut out, report.events())?;
    print_heard(&mut out, report.heard())?;
    out.push_str("end\n")?;
    Ok(out.into_bytes())
}

fn print_head(out: &mut String, word: &[Lane]) -> Result<(), AllocError>
    ensures { OnOk result (string_bytes out.new ≡ string_bytes out.old
        ++ (line (codes "report" ∷ codes "1" ∷ []) ++ line (codes "word" ∷ word_text word.now ∷ []))) }
{
    out.push_str("report 1\nword ")?;
    print_word(out, word)?;
    out.push('\n')
}

fn print_frames(out: &mut String, frames: &[Frame]) -> Result<(), AllocError>
    ensures { OnOk result (string_bytes out.new ≡ string_bytes out.old ++ flat_map frame_lines frames.now) }
{
    for frame in frames {
        print_frame(out, frame)?;
    }
    Ok(())
}

fn print_frame(out: &mut String, frame: &Frame) -> Result<(), AllocError>
    ensures { OnOk result (string_bytes out.new ≡ string_bytes out.old ++ frame_lines frame.now) }
{
    writeln!(out, "frame {} commit {}", frame.time(), frame.commit())?;
    for i in 0..frame.row_count() {
        print_row(out, frame.row(i))?;
    }
    Ok(())
}

fn print_row(out: &mut String, row: &FrameRow) -> Result<(), AllocError>
    ensures { OnOk result (string_bytes out.new ≡ string_bytes out.old ++ row_line (drawn_row_of row.now)) }
{
    write!(
        out,
        "element {} {} ",
        row.element.0,
        row.shown.opacity.get()
    )?;
    print_list(out, &row.shown.transform)?;
    out.push('\n')
}

fn print_events(out: &mut String, events: &[AnimEvent]) -> Result<(), AllocError>
    ensures { OnOk result (string_bytes out.new ≡ string_bytes out.old ++ flat_map event_line events.now) }
{
    for event in events {
        print_event(out, event)?;
    }
    Ok(())
}

fn print_event(out: &mut String, event: &AnimEvent) -> Result<(), AllocError>
    ensures { OnOk result (string_bytes out.new ≡ string_bytes out.old ++ event_line event.now) }
{
    match event {
        AnimEvent::Started {
            model,
            group,
            at,
            start,
        } => writeln!(
            out,
            "started {} group {} at {at} start {start}",
            model.0, group.0
        ),
        AnimEvent::Finished { model, at } => writeln!(out, "finished {} at {at}", model.0),
        AnimEvent::Aborted { model, commit } => {
            writeln!(out, "aborted {} commit {commit}", model.0)
        }
    }
}

fn print_heard(out: &mut String, heard: &[u32]) -> Result<(), AllocError>
    ensures { OnOk result (string_bytes out.new ≡ string_bytes out.old ++ flat_map heard_line heard.now) }
{
    for count in heard {
        writeln!(out, "heard {count}")?;
    }
    Ok(())
}
