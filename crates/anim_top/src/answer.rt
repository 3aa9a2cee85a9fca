//! The answer to a script's bytes.

ghost use Rattle.std.specs.Prelude.{◌≡◌, IfOk};
ghost use Rattle.anim_top.specs.Answers.{refusal_text};
ghost use Rattle.anim_top.specs.Outside.{FoundWord, IsAnswerTo, RefusesAs, ReportFor, own_word};

use crate::causes::cause_text;
use crate::replaying::report_of;
use crate::running::run_threads;
use crate::{Hooks, Status};
use anim_delegate::VerdictFunction;
use easing_fixed::EasingFunction;
use edge_io::Gate;
use frame_report::print_report;
use frame_script::{Cause, ScriptFault};
use script_reader::read_script;
use std::alloc::{AllocError, Global};
use std::sync::Wait;
use std::thread::Threads;

/// A status, and all that is written before the program ends with it. Writing the text is the caller's part.
#[derive(Drop)]
pub(crate) struct Answer {
    pub(crate) status: Status,
    pub(crate) text: Vec<u8>,
}

/// The report of the script that the bytes spell, for the script's own word; or their refusal.
pub(crate) fn replay_bytes<F: VerdictFunction, E: EasingFunction>(
    alloc: Global,
    bytes: &[u8],
    hooks: &Hooks<F, E>,
) -> Result<Answer, AllocError>
    ensures { IfOk result (λ answer. IsAnswerTo (ReportFor own_word) bytes.now answer.status answer.text.items) }
{
    match read_script(alloc, bytes) {
        Ok(script) => {
            let report = report_of(alloc, &script, hooks)?;
            let text = print_report(alloc, &report)?;
            let status = Status::Done;
            Ok(Answer { status, text })
        }
        Err(fault) => refusal(alloc, fault),
    }
}

/// The report of the script that the bytes spell, for the word in which its lanes met; or their refusal.
pub(crate) fn run_bytes<
    R: Threads + Wait + Sync,
    G: Gate + Sync,
    F: VerdictFunction + Sync,
    E: EasingFunction + Sync,
>(rt: &R, alloc: Global, bytes: &[u8], gate: &G, hooks: &Hooks<F, E>) -> Result<Answer, AllocError>
    ensures { IfOk result (λ answer. IsAnswerTo (ReportFor FoundWord) bytes.now answer.status answer.text.items) }
{
    match read_script(alloc, bytes) {
        Ok(script) => {
            let report = run_threads(rt, alloc, &script, gate, hooks)?;
            let text = print_report(alloc, &report)?;
            let status = Status::Done;
            Ok(Answer { status, text })
        }
        Err(fault) => refusal(alloc, fault),
    }
}

// The answer to bytes that are refused.
fn refusal(alloc: Global, fault: ScriptFault) -> Result<Answer, AllocError>
    ensures { IfOk result (λ answer. RefusesAs fault answer.status answer.text.items) }
{
    match fault {
        ScriptFault::Refused { line, cause } => {
            let text = refusal_text(alloc, line, cause)?;
            let status = Status::Refused { line, cause };
            Ok(Answer { status, text })
        }
        ScriptFault::NoMemory => Err(AllocError),
    }
}

fn refusal_text(alloc: Global, line: u32, cause: Cause) -> Result<Vec<u8>, AllocError>
    ensures { IfOk result (λ text. text.items ≡ refusal_text line cause) }
{
    let mut text = format!(in alloc; "refused: line {line}: ")?;
    text.push_str(cause_text(cause))?;
    text.push('\n')?;
    Ok(text.into_bytes())
}
