//! How the tests call the program: with its arguments as words, and with functions as hooks.

ghost use Rattle.std.specs.Prelude.{◌≡◌, ◌≢◌, ◌<◌, IfOk};
ghost use Rattle.anim_delegate.specs.Delegates.{MayAsk, FollowsTable};
ghost use Rattle.anim_delegate.specs.Table.{verdict_on};
ghost use Rattle.easing_fixed.specs.Evaluators.{MayEase, Eases};
ghost use Rattle.edge_io.specs.Edges.{HasRisen};

use anim_delegate::{Delegate, Policy, Verdict, VerdictFunction};
use anim_names::AnimEvent;
use anim_top::{Hooks, Status, command, plain_command};
use easing_fixed::{Easing, EasingFunction, Evaluator};
use edge_io::{Gate, IdleGate, MemorySink, MemorySource, Sink, Source, SteadySink, SteadySource};
use std::alloc::{AllocError, Global};
use std::process::Abort;
use std::sync::Wait;
use std::thread::Threads;

/// What the program answered, and what it wrote.
#[derive(Drop)]
pub struct Answer {
    pub status: Status,
    pub text: Vec<u8>,
}

/// Whether the program was done, and wrote this.
pub fn expect_done(rt: &impl Abort, answer: &Answer, text: &str) {
    assert!(rt; answer.status == Status::Done);
    assert_eq!(rt; answer.text.as_slice(), text.as_bytes());
}

/// Whether the program ended with this number, and wrote this.
pub fn expect_number(rt: &impl Abort, answer: &Answer, number: u8, text: &str) {
    assert!(rt; answer.status.number() == number);
    assert!(rt; answer.text.as_slice() == text.as_bytes());
}

/// Whether the program ended with this number, and wrote the first bytes of this text, of this length.
pub fn expect_front(rt: &impl Abort, answer: &Answer, number: u8, length: usize, text: &str) {
    assert!(rt; answer.status.number() == number);
    assert!(rt; answer.text.len() == length);
    assert!(rt; text.as_bytes().starts_with(answer.text.as_slice()));
}

fn arguments_of(alloc: Global, words: &str) -> Result<Vec<String>, AllocError> {
    let mut arguments = Vec::new(alloc);
    for word in words.split_whitespace() {
        arguments.push(String::from_str(alloc, word)?)?;
    }
    Ok(arguments)
}

/// Calls `command` with these functions as hooks.
fn command_with<
    R: Threads + Wait + Sync,
    S: Source,
    K: Sink,
    G: Gate + Sync,
    F: VerdictFunction + Sync + Drop,
    E: EasingFunction + Sync + Drop,
>(
    rt: &R,
    alloc: Global,
    arguments: &[String],
    source: &mut S,
    sink: &mut K,
    gate: &G,
    verdict: F,
    ease: E,
) -> Status
    requires may_be_asked { MayAsk (F.asks verdict) }
    requires follows_the_table { FollowsTable (F.answers verdict) }
    requires may_ease { MayEase (E.asks ease) }
    requires eases { Eases (E.answers ease) }
    ensures read_fault { result ≡ Status.ReadFault → HasRisen (S.faults source.old) (S.faults source.new) }
    ensures write_fault { result ≡ Status.WriteFault → HasRisen (K.faults sink.old) (K.faults sink.new) }
{
    let hooks = Hooks {
        delegate: Delegate::new(verdict),
        evaluator: Evaluator::new(ease),
    };
    command(rt, alloc, arguments, source, sink, gate, &hooks)
}

/// Calls `plain_command` with these functions as hooks.
fn plain_command_with<S: Source, K: Sink, F: VerdictFunction + Drop, E: EasingFunction + Drop>(
    alloc: Global,
    arguments: &[String],
    source: &mut S,
    sink: &mut K,
    verdict: F,
    ease: E,
) -> Status
    requires may_be_asked { MayAsk (F.asks verdict) }
    requires follows_the_table { FollowsTable (F.answers verdict) }
    requires may_ease { MayEase (E.asks ease) }
    requires eases { Eases (E.answers ease) }
{
    let hooks = Hooks {
        delegate: Delegate::new(verdict),
        evaluator: Evaluator::new(ease),
    };
    plain_command(alloc, arguments, source, sink, &hooks)
}

/// Calls `command` with the functions that the program stores.
pub fn call<R: Threads + Wait + Sync, S: Source, K: Sink, G: Gate + Sync>(
    rt: &R,
    alloc: Global,
    words: &str,
    source: &mut S,
    sink: &mut K,
    gate: &G,
) -> Result<Status, AllocError>
    ensures read_fault { IfOk result (λ status.
        status ≡ Status.ReadFault → HasRisen (S.faults source.old) (S.faults source.new)) }
    ensures write_fault { IfOk result (λ status.
        status ≡ Status.WriteFault → HasRisen (K.faults sink.old) (K.faults sink.new)) }
{
    let arguments = arguments_of(alloc, words)?;
    Ok(command_with(
        rt,
        alloc,
        arguments.as_slice(),
        source,
        sink,
        gate,
        Policy::verdict_on,
        Easing::value,
    ))
}

/// The table of verdicts, event by event.
fn by_event(policy: Policy, event: &AnimEvent) -> Verdict
    ensures { result ≡ verdict_on policy event.now }
{
    match event {
        AnimEvent::Started { .. } => Verdict::Keep,
        AnimEvent::Finished { .. } => match policy {
            Policy::Auto | Policy::FinishedOnly => Verdict::Retire,
            Policy::Manual => Verdict::Keep,
        },
        AnimEvent::Aborted { .. } => match policy {
            Policy::Auto => Verdict::Retire,
            Policy::FinishedOnly | Policy::Manual => Verdict::Keep,
        },
    }
}

/// Calls `plain_command` with closures as the stored functions.
pub fn call_plainly<S: Source, K: Sink>(
    alloc: Global,
    words: &str,
    source: &mut S,
    sink: &mut K,
) -> Result<Status, AllocError> {
    let arguments = arguments_of(alloc, words)?;
    let verdict = |policy: Policy, event: &AnimEvent| by_event(policy, event);
    let ease = |easing: &Easing, p: u32| easing.quick_value(p);
    Ok(plain_command_with(alloc, arguments.as_slice(), source, sink, verdict, ease))
}

/// Over a source and a sink that never fail no answer is a fault.
fn steadily<R: Threads + Wait + Sync>(
    rt: &R,
    alloc: Global,
    words: &str,
    source: &mut SteadySource,
    sink: &mut SteadySink,
) -> Result<Status, AllocError>
    ensures { IfOk result (λ status. (status ≢ Status.ReadFault) × (status ≢ Status.WriteFault)) }
{
    call(rt, alloc, words, source, sink, &IdleGate)
}

/// A source that gives this text, and never fails.
pub fn steady_source(alloc: Global, text: &str) -> Result<SteadySource, AllocError> {
    Ok(SteadySource::new(text.as_bytes().to_vec(alloc)?))
}

/// Whether the program is done over a source and a sink that never fail, and the sink has just this text.
pub fn expect_steady<R: Threads + Wait + Sync + Abort>(
    rt: &R,
    alloc: Global,
    words: &str,
    source: &mut SteadySource,
    sink: &mut SteadySink,
    text: &str,
) -> Result<(), AllocError> {
    assert!(rt; steadily(rt, alloc, words, source, sink)? == Status::Done);
    assert!(rt; sink.is_whole());
    assert!(rt; sink.taken() == text.as_bytes());
    Ok(())
}

fn source_of(
    alloc: Global,
    bytes: &[u8],
    most: usize,
    failing: &[u32],
) -> Result<MemorySource, AllocError>
    requires { 0 < most }
{
    let bytes = bytes.to_vec(alloc)?;
    Ok(MemorySource::new(bytes, most, failing.to_vec(alloc)?))
}

fn sink_of(alloc: Global, most: usize, failing: &[u32]) -> Result<MemorySink, AllocError>
    requires { 0 < most }
{
    MemorySink::new(alloc, most, failing.to_vec(alloc)?)
}

fn answer_of(alloc: Global, status: Status, sink: &MemorySink) -> Result<Answer, AllocError> {
    Ok(Answer {
        status,
        text: sink.taken().to_vec(alloc)?,
    })
}

/// What the program answers to these words over these bytes. The calls of the source with the first numbers fail, and
/// those of the sink with the second.
pub fn answered<R: Threads + Wait + Sync, G: Gate + Sync>(
    rt: &R,
    alloc: Global,
    words: &str,
    bytes: &[u8],
    failing: (&[u32], &[u32]),
    gate: &G,
) -> Result<Answer, AllocError> {
    let mut source = source_of(alloc, bytes, 100, failing.0)?;
    let mut sink = sink_of(alloc, 64, failing.1)?;
    let status = call(rt, alloc, words, &mut source, &mut sink, gate)?;
    answer_of(alloc, status, &sink)
}

/// Replays the bytes.
pub fn replayed<R: Threads + Wait + Sync>(
    rt: &R,
    alloc: Global,
    bytes: &[u8],
) -> Result<Answer, AllocError> {
    answered(rt, alloc, "replay", bytes, (&[], &[]), &IdleGate)
}

/// The answer to a command that reads nothing, over a source that would fail at its first call.
pub fn written<R: Threads + Wait + Sync>(
    rt: &R,
    alloc: Global,
    words: &str,
) -> Result<Answer, AllocError> {
    answered(rt, alloc, words, b"", (&[0], &[]), &IdleGate)
}

/// What the program answers on one thread where a call moves at most 16 bytes. The calls of the source with the first
/// numbers fail, and those of the sink with the second.
pub fn in_pieces(
    alloc: Global,
    words: &str,
    bytes: &[u8],
    failing: (&[u32], &[u32]),
) -> Result<Answer, AllocError> {
    let mut source = source_of(alloc, bytes, 16, failing.0)?;
    let mut sink = sink_of(alloc, 16, failing.1)?;
    let status = call_plainly(alloc, words, &mut source, &mut sink)?;
    answer_of(alloc, status, &sink)
}
