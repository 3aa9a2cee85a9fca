//! A source over any reader of std, as the program has it over standard input. It reads an interrupted call again,
//! and buffers nothing.

ghost use Rattle.std.specs.Prelude.{◌≡◌, ◌<◌};
ghost use Rattle.edge_io.specs.StdSource.{ReaderState};

use crate::{Failed, Source};
use std::io::{ErrorKind, Read};
use std::marker::Model;

/// A source over a reader of std. It tells the bytes that its reader tells. It keeps no buffer: a read asks the reader
/// for no more bytes than the caller has room for.
///
/// Each error of the reader is a fault and raises the count, which stays at 2^64 - 1. A read that was
/// interrupted is tried again; any other error makes the call fail.
#[derive(Drop)]
pub struct StdSource<R: Read> {
    inner: R,
    faults: u64,
}

impl<R: Read> Model for StdSource<R> {
    ghost Value = { ReaderState };

    ghost view = { λ s. record { left = R.remaining s.inner; faults = s.faults } };
}

impl<R: Read> StdSource<R> {
    pub fn new(inner: R) -> Self
        ensures { result ≡ record { left = R.remaining inner; faults = 0 } }
    {
        StdSource { inner, faults: 0 }
    }

    /// The reader, which has the bytes left that the source told.
    pub fn into_inner(self) -> R
        ensures { R.remaining result ≡ self.left }
    {
        let StdSource { inner, .. } = self;
        inner
    }
}

impl<R: Read> Source for StdSource<R> {
    ghost left = { λ s. s.left };

    ghost faults = { λ s. s.faults };

    #[tactic(auto, using(crate::proofs::Kept::kept))]
    fn read(&mut self, into: &mut [u8]) -> Result<usize, Failed> {
        for _ in 0..u64::MAX {
            match self.inner.read(into) {
                Ok(count) => return Ok(count),
                Err(error) => {
                    self.faults = self.faults.saturating_add(1);
                    if error.kind() != ErrorKind::Interrupted {
                        return Err(Failed);
                    }
                }
            }
        }
        Err(Failed)
    }
}
