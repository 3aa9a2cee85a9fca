//! A sink for tests that takes bytes in small parts and fails at chosen calls, or once its room is full.

ghost use Rattle.std.specs.Prelude.{◌≡◌, ◌-◌, ◌<◌, ◌≤◌, ◌↔◌, ◌⊎◌, [], ◌++◌, length, take, min, vec_len, vec_capacity, Some, IsTrue, IsErr, IfOk, OnErr, Contains};
ghost use Rattle.edge_io.specs.Edges.{next_count};
ghost use Rattle.edge_io.specs.MemorySink.{SinkState, room};

use crate::call::is_named;
use crate::capacity::extend_within_capacity;
use crate::{Failed, Sink};
use std::alloc::{AllocError, Global};
use std::marker::Model;

/// How many bytes a [`MemorySink`] has room for. Its clauses know this number as `room`.
pub const ROOM: usize = 1 << 20;

/// A sink over memory for tests: it takes bytes in small parts, and fails at the calls that it is told to and
/// where its room is full. It always tells its bytes.
#[derive(Drop)]
pub struct MemorySink {
    bytes: Vec<u8>,
    most: usize,
    failing: Vec<u32>,
    call: u64,
    faults: u64,
}

impl Model for MemorySink {
    ghost Value = { SinkState };

    ghost view = { λ s. record {
      taken = s.bytes.items;
      most = s.most;
      failing = s.failing.items;
      call = s.call;
      faults = s.faults;
    } };

    ghost invariant = { λ s. (0 < s.most) × (vec_len s.bytes ≤ room) × (room ≤ vec_capacity s.bytes) };
}

impl MemorySink {
    /// Reserves the room. A call takes at most `most` bytes. The calls whose numbers, counted from 0, are in
    /// `failing` fail. `AllocError` comes where there is no memory for the room.
    pub fn new(alloc: Global, most: usize, failing: Vec<u32>) -> Result<Self, AllocError>
        requires { 0 < most }
        ensures { IfOk result (λ sink. sink ≡ record {
          taken = [];
          most = most;
          failing = failing.items;
          call = 0;
          faults = 0;
        }) }
    {
        Ok(MemorySink {
            bytes: Vec::with_capacity(alloc, ROOM)?,
            most,
            failing,
            call: 0,
            faults: 0,
        })
    }

    /// The bytes that were taken.
    pub fn taken(&self) -> &[u8]
        ensures { result.now ≡ self.now.taken }
    {
        &self.bytes
    }

    /// Whether the next call fails.
    fn is_to_fail(&self) -> bool
        ensures { IsTrue result ↔
            (Contains self.now.failing self.now.call ⊎ (room ≤ length self.now.taken)) }
    {
        self.bytes.len() == ROOM || is_named(&self.failing, self.call)
    }
}

impl Sink for MemorySink {
    ghost taken = { λ s. Some s.taken };

    ghost faults = { λ s. s.faults };

    fn write(&mut self, piece: &[u8]) -> Result<usize, Failed>
        requires { 0 < length piece.now }
        ensures failing { IsErr result ↔
            (Contains self.old.failing self.old.call ⊎ (room ≤ length self.old.taken)) }
        ensures count { IfOk result (λ n.
            n ≡ min self.old.most (min (length piece.now) (room - length self.old.taken))) }
        ensures ok { IfOk result (λ n. self.new ≡ record self.old {
          taken = self.old.taken ++ take n piece.now;
          call = next_count self.old.call;
        }) }
        ensures err { OnErr result (self.new ≡ record self.old {
          call = next_count self.old.call;
          faults = next_count self.old.faults;
        }) }
        ensures some { IfOk result (λ n. 0 < n) }
        ensures never_falls { self.old.faults ≤ self.new.faults }
    {
        let fails = self.is_to_fail();
        self.call = self.call.saturating_add(1);
        if fails {
            self.faults = self.faults.saturating_add(1);
            return Err(Failed);
        }
        let left = ROOM - self.bytes.len();
        let count = self.most.min(piece.len()).min(left);
        extend_within_capacity(&mut self.bytes, &piece[..count]);
        Ok(count)
    }
}
