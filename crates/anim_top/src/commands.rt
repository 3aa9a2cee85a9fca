//! The calls that the program makes.

ghost use Rattle.std.specs.Prelude.{◌≡◌, ◌⊎◌, ◌≤◌, ℕ, map, take, IsOkAnd, string_bytes};
ghost use Rattle.edge_io.specs.Edges.{HasRisen, Took};
ghost use Rattle.anim_top.specs.Commands.{command_of, plain};
ghost use Rattle.anim_top.specs.Outside.{FoundWord, IsWritten, ReportFor, Serves, own_word};
ghost use Rattle.anim_top.specs.Promises.{KeepsPromises};

use crate::answer::{Answer, replay_bytes, run_bytes};
use crate::arguments::{Command, command_of};
use crate::generating::{generated_text, load_text};
use crate::intake::{ReadError, read_bytes};
use crate::outlet::write_all;
use crate::{Hooks, Status};
use anim_delegate::VerdictFunction;
use easing_fixed::EasingFunction;
use edge_io::{Gate, Sink, Source};
use std::alloc::{AllocError, Global};
use std::sync::Wait;
use std::thread::Threads;

/// Does what the arguments ask for. The number of the status is what the program ends with.
///
/// `run` reads a script from the source, runs its two lanes at once, each in a thread of its own, and writes the
/// report, or the refusal of the first line that is refused. Before each step of a lane the lane passes the gate. `run`
/// may wait for the lock between the lanes. All else is done by [`plain_command`].
pub fn command<
    R: Threads + Wait + Sync,
    S: Source,
    K: Sink,
    G: Gate + Sync,
    F: VerdictFunction + Sync,
    E: EasingFunction + Sync,
>(
    rt: &R,
    alloc: Global,
    arguments: &[String],
    source: &mut S,
    sink: &mut K,
    gate: &G,
    hooks: &Hooks<F, E>,
) -> Status
    ensures { KeepsPromises (command_of (map string_bytes arguments.now)) source.old source.new
        (S.left source.old) (S.left source.new) (S.faults source.old) (S.faults source.new) sink.old sink.new
        (K.taken sink.old) (K.taken sink.new) (K.faults sink.old) (K.faults sink.new) result }
{
    match command_of(arguments) {
        Some(Command::Run) => run_source(rt, alloc, source, sink, gate, hooks),
        _ => plain_command(alloc, arguments, source, sink, hooks),
    }
}

/// Does what the arguments ask for, reading from the source and writing to the sink.
///
/// `replay` reads a script and writes its report, or the refusal of the first line that is refused. `gen N` writes the
/// script that is made from N, and `load N` replays that one and writes the summary of its report. It waits for nobody.
/// The answer `NoMemory` may come at any time, with nothing written.
pub fn plain_command<S: Source, K: Sink, F: VerdictFunction, E: EasingFunction>(
    alloc: Global,
    arguments: &[String],
    source: &mut S,
    sink: &mut K,
    hooks: &Hooks<F, E>,
) -> Status
    ensures { KeepsPromises (plain (command_of (map string_bytes arguments.now))) source.old source.new
        (S.left source.old) (S.left source.new) (S.faults source.old) (S.faults source.new) sink.old sink.new
        (K.taken sink.old) (K.taken sink.new) (K.faults sink.old) (K.faults sink.new) result }
{
    match command_of(arguments) {
        None | Some(Command::Run) => Status::Usage,
        Some(Command::Replay) => replay_source(alloc, source, sink, hooks),
        Some(Command::Gen(n)) => write_made(sink, generated_text(alloc, n)),
        Some(Command::Load(n)) => write_made(sink, load_text(alloc, n, hooks)),
    }
}

// Reads a script from the source, and writes its report for the word in which its lanes met, or its refusal, to the
// sink.
fn run_source<
    R: Threads + Wait + Sync,
    S: Source,
    K: Sink,
    G: Gate + Sync,
    F: VerdictFunction + Sync,
    E: EasingFunction + Sync,
>(rt: &R, alloc: Global, source: &mut S, sink: &mut K, gate: &G, hooks: &Hooks<F, E>) -> Status
    ensures { Serves (ReportFor FoundWord) (S.left source.old) (S.left source.new) (S.faults source.old) (S.faults source.new)
        sink.old sink.new (K.taken sink.old) (K.taken sink.new) (K.faults sink.old) (K.faults sink.new) result }
{
    let bytes = match read_bytes(alloc, source) {
        Ok(bytes) => bytes,
        Err(ReadError::Fault) => return Status::ReadFault,
        Err(ReadError::NoMemory) => return Status::NoMemory,
    };
    let Ok(answer) = run_bytes(rt, alloc, bytes.as_slice(), gate, hooks) else {
        return Status::NoMemory;
    };
    write_answer(sink, &answer)
}

// Reads a script from the source, and writes its report for its own word, or its refusal, to the sink.
fn replay_source<S: Source, K: Sink, F: VerdictFunction, E: EasingFunction>(
    alloc: Global,
    source: &mut S,
    sink: &mut K,
    hooks: &Hooks<F, E>,
) -> Status
    ensures { Serves (ReportFor own_word) (S.left source.old) (S.left source.new) (S.faults source.old) (S.faults source.new)
        sink.old sink.new (K.taken sink.old) (K.taken sink.new) (K.faults sink.old) (K.faults sink.new) result }
{
    let bytes = match read_bytes(alloc, source) {
        Ok(bytes) => bytes,
        Err(ReadError::Fault) => return Status::ReadFault,
        Err(ReadError::NoMemory) => return Status::NoMemory,
    };
    let Ok(answer) = replay_bytes(alloc, bytes.as_slice(), hooks) else {
        return Status::NoMemory;
    };
    write_answer(sink, &answer)
}

// Writes the text of an answer. The status is the answer's, unless the sink fails.
fn write_answer<K: Sink>(sink: &mut K, answer: &Answer) -> Status
    ensures written { IsWritten answer.now.status answer.now.text.items (K.taken sink.old) (K.taken sink.new)
        (K.faults sink.old) (K.faults sink.new) result }
    ensures sink_counts { K.faults sink.old ≤ K.faults sink.new }
{
    match write_all(sink, answer.text.as_slice()) {
        Ok(()) => answer.status,
        Err(_) => Status::WriteFault,
    }
}

// Writes a text that was made, where there was memory for it.
fn write_made<K: Sink>(sink: &mut K, made: Result<Vec<u8>, AllocError>) -> Status
    ensures answers { (result ≡ Status.Done) ⊎ ((result ≡ Status.WriteFault) ⊎ (result ≡ Status.NoMemory)) }
    ensures done { result ≡ Status.Done → IsOkAnd made (λ text. Took (K.taken sink.old) (K.taken sink.new) text.items) }
    ensures write_fault { result ≡ Status.WriteFault → HasRisen (K.faults sink.old) (K.faults sink.new)
        × IsOkAnd made (λ text. (count : ℕ) × Took (K.taken sink.old) (K.taken sink.new) (take count text.items)) }
    ensures no_memory { result ≡ Status.NoMemory → sink.new ≡ sink.old }
    ensures sink_counts { K.faults sink.old ≤ K.faults sink.new }
{
    let Ok(text) = made else {
        return Status::NoMemory;
    };
    match write_all(sink, text.as_slice()) {
        Ok(()) => Status::Done,
        Err(_) => Status::WriteFault,
    }
}
