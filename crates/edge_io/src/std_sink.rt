//! A sink over any writer of std, as the program has it over standard output. Each write is flushed, and an
//! interrupted one is tried again.

ghost use Rattle.std.specs.Prelude.{◌≡◌, ◌<◌, ◌≤◌, length, take, Some, None, Ok, IfSome, IfOk, OnOk, OnErr};
ghost use Rattle.edge_io.specs.Edges.{HasRisen, Took};
ghost use Rattle.edge_io.specs.StdSink.{WriterState, TellsSince, told};

use crate::{Failed, Sink};
use std::io::{self, ErrorKind, Write};
use std::marker::Model;
use std::snapshot::Snapshot;

/// A sink over a writer of std. It tells the bytes that its writer tells, if the writer told them at first.
///
/// Each write is flushed, so that the bytes taken have left the writer's buffers too. std says nothing of what a flush
/// does beside keeping the bytes told, so no clause can tell that it is called: a test counts the flushes.
///
/// Each error of the writer is a fault and raises the count, which stays at 2^64 - 1, and so does a write that
/// takes no byte. A write that was interrupted is tried again; any other fault makes the call fail. Where a flush
/// fails, nobody knows how many bytes got out, and the sink tells nothing from then on.
#[derive(Drop)]
pub struct StdSink<W: Write> {
    inner: W,
    first: Snapshot<W>,
    is_lost: bool,
    faults: u64,
}

impl<W: Write> Model for StdSink<W> {
    ghost Value = { WriterState };

    ghost view = { λ s. record {
      taken = told s.is_lost (W.contents s.first.value) (W.contents s.inner);
      faults = s.faults;
    } };

    ghost invariant = { λ s. TellsSince (W.contents s.first.value) (W.contents s.inner) };
}

impl<W: Write> StdSink<W> {
    pub fn new(inner: W) -> Self
        ensures { result ≡ record { taken = W.contents inner; faults = 0 } }
    {
        let first = Snapshot::of(&inner);
        StdSink {
            inner,
            first,
            is_lost: false,
            faults: 0,
        }
    }

    /// The writer, which holds the bytes that the sink told.
    pub fn into_inner(self) -> W
        ensures { IfSome self.taken (λ bytes. W.contents result ≡ Some bytes) }
    {
        let StdSink { inner, .. } = self;
        inner
    }

    /// Counts a fault.
    fn fail(&mut self) -> Failed
        ensures risen { HasRisen self.old.faults self.new.faults }
        ensures never_falls { self.old.faults ≤ self.new.faults }
        ensures taken { self.new.taken ≡ self.old.taken }
    {
        self.faults = self.faults.saturating_add(1);
        Failed
    }

    /// Writes from the front of `piece` once.
    fn write_once(&mut self, piece: &[u8]) -> io::Result<usize>
        ensures room { IfOk result (λ n. n ≤ length piece.now) }
        ensures taken { IfOk result (λ n. Took self.old.taken self.new.taken (take n piece.now)) }
        ensures faults { self.new.faults ≡ self.old.faults }
        ensures same { OnErr result (self.new ≡ self.old) }
    {
        self.inner.write(piece)
    }

    /// Flushes the writer after it took `count` bytes.
    fn flushed(&mut self, count: usize) -> Result<usize, Failed>
        ensures ok { IfOk result (λ n. n ≡ count) }
        ensures same { OnOk result (self.new ≡ self.old) }
        ensures lost { OnErr result (self.new.taken ≡ None) }
        ensures failed { OnErr result (HasRisen self.old.faults self.new.faults) }
        ensures never_falls { self.old.faults ≤ self.new.faults }
    {
        if self.inner.flush().is_err() {
            self.is_lost = true;
            return Err(self.fail());
        }
        Ok(count)
    }
}

impl<W: Write> Sink for StdSink<W> {
    ghost taken = { λ s. s.taken };

    ghost faults = { λ s. s.faults };

    fn write(&mut self, piece: &[u8]) -> Result<usize, Failed> {
        for _ in 0..u64::MAX {
            match self.write_once(piece) {
                Ok(0) => return Err(self.fail()),
                Ok(count) => return self.flushed(count),
                Err(error) => {
                    let failed = self.fail();
                    if error.kind() != ErrorKind::Interrupted {
                        return Err(failed);
                    }
                }
            }
        }
        Err(Failed)
    }
}
