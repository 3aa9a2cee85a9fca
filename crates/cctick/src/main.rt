//! `cctick` runs or replays the script on standard input and writes its report to standard output. It also makes large
//! scripts from a number, and replays these. What it says of itself, `main` writes before any command is looked at.
#![tactic(auto)]

ghost use Rattle.std.specs.Prelude.{◌≤◌};
ghost use Rattle.anim_delegate.specs.Delegates.{MayAsk, FollowsTable};
ghost use Rattle.anim_top.specs.Outside.{IsWritten};
ghost use Rattle.easing_fixed.specs.Evaluators.{MayEase, Eases};

mod texts;

use crate::texts::{HELP, VERSION};
use anim_delegate::{Delegate, Policy, VerdictFunction};
use anim_top::{Hooks, Status, command, write_all};
use easing_fixed::{Easing, EasingFunction, Evaluator};
use edge_io::{IdleGate, Sink, Source, StdSink, StdSource};
use std::alloc::Global;
use std::io::ErrorKind;
use std::process::ExitCode;
use std::rt::Env;
use std::sync::Wait;
use std::thread::Threads;
use std::{env, io};

fn main(rt: HostRuntime) -> ExitCode {
    let mut source = StdSource::new(rt.stdin());
    let mut sink = StdSink::new(rt.stdout());
    let status = match arguments_of(&rt) {
        Ok(arguments) => match text_asked_for(arguments.as_slice()) {
            Some(text) => tell(&mut sink, text),
            None => answer_with(
                &rt,
                rt.alloc(),
                arguments.as_slice(),
                &mut source,
                &mut sink,
                Policy::verdict_on,
                Easing::quick_value,
            ),
        },
        Err(error) if error.kind() == ErrorKind::OutOfMemory => Status::NoMemory,
        Err(_) => Status::Usage,
    };
    if status == Status::Usage {
        let _ = eprintln!(rt; "usage: cctick run | replay | gen N | load N");
    }
    ExitCode::from(status.number())
}

/// The text about the program itself that the arguments ask for, if they are one word that asks for one.
fn text_asked_for(arguments: &[String]) -> Option<&'static str> {
    match arguments {
        [word] => match word.as_str() {
            "--help" | "-h" => Some(HELP),
            "--version" => Some(VERSION),
            _ => None,
        },
        _ => None,
    }
}

/// Writes a text about the program itself.
fn tell<K: Sink>(sink: &mut K, text: &str) -> Status
    ensures written { IsWritten Status.Done text.now (K.taken sink.old) (K.taken sink.new)
        (K.faults sink.old) (K.faults sink.new) result }
    ensures sink_counts { K.faults sink.old ≤ K.faults sink.new }
{
    match write_all(sink, text.as_bytes()) {
        Ok(()) => Status::Done,
        Err(_) => Status::WriteFault,
    }
}

/// Answers the arguments over a source and a sink, with these two functions as hooks, and with no gate before the
/// steps.
fn answer_with<
    R: Threads + Wait + Sync,
    S: Source,
    K: Sink,
    F: VerdictFunction + Sync + Drop,
    E: EasingFunction + Sync + Drop,
>(
    rt: &R,
    alloc: Global,
    arguments: &[String],
    source: &mut S,
    sink: &mut K,
    verdict: F,
    ease: E,
) -> Status
    requires may_be_asked { MayAsk (F.asks verdict) }
    requires follows_the_table { FollowsTable (F.answers verdict) }
    requires may_ease { MayEase (E.asks ease) }
    requires eases { Eases (E.answers ease) }
{
    let hooks = Hooks {
        delegate: Delegate::new(verdict),
        evaluator: Evaluator::new(ease),
    };
    command(rt, alloc, arguments, source, sink, &IdleGate, &hooks)
}

/// The arguments after the program's name. One that is not UTF-8 is an error.
fn arguments_of(rt: &HostRuntime) -> io::Result<Vec<String>> {
    let mut arguments = Vec::new(rt.alloc());
    for argument in env::args(rt)?.skip(1) {
        arguments.push(argument)?;
    }
    Ok(arguments)
}
