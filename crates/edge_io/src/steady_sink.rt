//! A sink for tests that takes each piece whole, within room that is reserved once, and never fails.

ghost use Rattle.std.specs.Prelude.{◌≡◌, ◌+◌, ◌<◌, ◌≤◌, [], ◌++◌, length, true, false, vec_len, vec_capacity, Ok, IfOk};
ghost use Rattle.edge_io.specs.SteadySink.{SteadyState, told};

use crate::capacity::extend_within_capacity;
use crate::{Failed, Sink};
use std::alloc::{AllocError, Global};
use std::marker::Model;

/// A sink over memory that never fails. It takes each piece whole, and keeps a piece that fits in the room that is
/// left. It tells its bytes until a piece does not fit, and never again.
#[derive(Drop)]
pub struct SteadySink {
    bytes: Vec<u8>,
    room: usize,
    is_whole: bool,
}

impl Model for SteadySink {
    ghost Value = { SteadyState };

    ghost view = { λ s. record { kept = s.bytes.items; room = s.room; is_whole = s.is_whole } };

    ghost invariant = { λ s. (vec_len s.bytes ≤ s.room) × (s.room ≤ vec_capacity s.bytes) };
}

impl SteadySink {
    /// Reserves room for `room` bytes. `AllocError` comes where there is no memory for them.
    pub fn new(alloc: Global, room: usize) -> Result<Self, AllocError>
        ensures { IfOk result (λ sink. sink ≡ record { kept = []; room = room; is_whole = true }) }
    {
        Ok(SteadySink {
            bytes: Vec::with_capacity(alloc, room)?,
            room,
            is_whole: true,
        })
    }

    /// The bytes of the pieces that fitted. They are the bytes that were taken, as long as each piece fitted.
    pub fn taken(&self) -> &[u8]
        ensures { result.now ≡ self.now.kept }
    {
        &self.bytes
    }

    /// Whether each piece fitted, so that the sink tells its bytes.
    pub fn is_whole(&self) -> bool
        ensures { result ≡ self.now.is_whole }
    {
        self.is_whole
    }
}

impl Sink for SteadySink {
    ghost taken = { told };

    ghost faults = { λ _. 0 };

    fn write(&mut self, piece: &[u8]) -> Result<usize, Failed>
        requires { 0 < length piece.now }
        ensures ok { result ≡ Ok (length piece.now) }
        ensures fits { length self.old.kept + length piece.now ≤ self.old.room
            → self.new ≡ record self.old { kept = self.old.kept ++ piece.now } }
        ensures dropped { self.old.room < length self.old.kept + length piece.now
            → self.new ≡ record self.old { is_whole = false } }
    {
        if piece.len() <= self.room - self.bytes.len() {
            extend_within_capacity(&mut self.bytes, piece);
        } else {
            self.is_whole = false;
        }
        Ok(piece.len())
    }
}
