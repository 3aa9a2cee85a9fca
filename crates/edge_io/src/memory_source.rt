//! A source for tests that gives its bytes in small parts and fails at chosen calls.

ghost use Rattle.std.specs.Prelude.{◌≡◌, ◌<◌, ◌≤◌, ◌↔◌, [], ◌++◌, length, take, drop, min, Some, IsErr, IfOk, OnErr, Contains};
ghost use Rattle.edge_io.specs.Edges.{next_count};
ghost use Rattle.edge_io.specs.MemorySource.{SourceState};

use crate::call::is_named;
use crate::{Failed, Source, SteadySource};
use std::marker::Model;

/// A source over memory for tests: it gives its bytes in small parts, and fails at the calls that it is told to.
/// It always tells its bytes.
#[derive(Drop)]
pub struct MemorySource {
    bytes: SteadySource,
    most: usize,
    failing: Vec<u32>,
    call: u64,
    faults: u64,
}

impl Model for MemorySource {
    ghost Value = { SourceState };

    ghost view = { λ s. record {
      left = s.bytes;
      most = s.most;
      failing = s.failing.items;
      call = s.call;
      faults = s.faults;
    } };

    ghost invariant = { λ s. 0 < s.most };
}

impl MemorySource {
    /// A call gives at most `most` bytes. The calls whose numbers, counted from 0, are in `failing` fail.
    pub fn new(bytes: Vec<u8>, most: usize, failing: Vec<u32>) -> Self
        requires { 0 < most }
        ensures { result ≡ record {
          left = bytes.items;
          most = most;
          failing = failing.items;
          call = 0;
          faults = 0;
        } }
    {
        MemorySource {
            bytes: SteadySource::new(bytes),
            most,
            failing,
            call: 0,
            faults: 0,
        }
    }
}

impl Source for MemorySource {
    ghost left = { λ s. Some s.left };

    ghost faults = { λ s. s.faults };

    fn read(&mut self, into: &mut [u8]) -> Result<usize, Failed>
        requires { 0 < length into.old }
        ensures failing { IsErr result ↔ Contains self.old.failing self.old.call }
        ensures count { IfOk result (λ n.
            n ≡ min self.old.most (min (length into.old) (length self.old.left))) }
        ensures into { IfOk result (λ n. into.new ≡ take n self.old.left ++ drop n into.old) }
        ensures ok { IfOk result (λ n. self.new ≡ record self.old {
          left = drop n self.old.left;
          call = next_count self.old.call;
        }) }
        ensures err { OnErr result (self.new ≡ record self.old {
          call = next_count self.old.call;
          faults = next_count self.old.faults;
        }) }
        ensures same { OnErr result (into.new ≡ into.old) }
        ensures end { IfOk result (λ n. n ≡ 0 → self.old.left ≡ []) }
        ensures never_falls { self.old.faults ≤ self.new.faults }
    {
        let fails = is_named(&self.failing, self.call);
        self.call = self.call.saturating_add(1);
        if fails {
            self.faults = self.faults.saturating_add(1);
            return Err(Failed);
        }
        let room = into.len().min(self.most);
        Ok(self.bytes.give(&mut into[..room]))
    }
}
