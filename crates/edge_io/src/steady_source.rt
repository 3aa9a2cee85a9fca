//! A source that gives its bytes from memory without a fault, for tests and below the source that fails at chosen
//! calls.

ghost use Rattle.std.specs.Prelude.{◌≡◌, ℕ, ◌<◌, ◌≤◌, List, ◌++◌, length, take, drop, min, vec_len, Some, Ok, IfOk};

use crate::{Failed, Source};
use std::marker::Model;

/// A source over memory that never fails. It gives as many bytes as there is room for. A contract sees the
/// bytes that are left.
#[derive(Drop)]
pub struct SteadySource {
    bytes: Vec<u8>,
    given: usize,
}

impl Model for SteadySource {
    ghost Value = { List ℕ };

    ghost view = { λ s. drop s.given s.bytes.items };

    ghost invariant = { λ s. s.given ≤ vec_len s.bytes };
}

impl SteadySource {
    pub fn new(bytes: Vec<u8>) -> Self
        ensures { result ≡ bytes.items }
    {
        SteadySource { bytes, given: 0 }
    }

    /// Moves the next bytes into the front of `into`, and says how many they are.
    pub(crate) fn give(&mut self, into: &mut [u8]) -> usize
        ensures count { result ≡ min (length into.old) (length self.old) }
        ensures into { into.new ≡ take result self.old ++ drop result into.old }
        ensures left { self.new ≡ drop result self.old }
    {
        let left = &self.bytes[self.given..];
        let count = into.len().min(left.len());
        into[..count].copy_from_slice(&left[..count]);
        self.given += count;
        count
    }
}

impl Source for SteadySource {
    ghost left = { λ s. Some s };

    ghost faults = { λ _. 0 };

    fn read(&mut self, into: &mut [u8]) -> Result<usize, Failed>
        requires { 0 < length into.old }
        ensures ok { result ≡ Ok (min (length into.old) (length self.old)) }
        ensures into { IfOk result (λ n. into.new ≡ take n self.old ++ drop n into.old) }
        ensures left { IfOk result (λ n. self.new ≡ drop n self.old) }
    {
        Ok(self.give(into))
    }
}
