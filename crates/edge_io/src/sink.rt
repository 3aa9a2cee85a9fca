//! The trait of what takes bytes: one call that writes, with a contract on the bytes taken and on the count of
//! faults.

ghost use Rattle.std.specs.Prelude.{ℕ, ◌<◌, ◌≤◌, List, [], length, take, Option, IfOk, OnErr};
ghost use Rattle.edge_io.specs.Edges.{HasRisen, Took};

use crate::Failed;

/// Where bytes go.
///
/// The meaning `taken` is the bytes that were taken, where the sink tells them. The meaning `faults` is how many faults
/// it had; it never falls. A sink takes nothing back, and it may take less than it is given: the caller writes the
/// rest.
pub trait Sink {
    ghost taken: { Self → Option (List ℕ) };

    ghost faults: { Self → ℕ };

    /// Takes bytes from the front of `piece`, one at least, and says how many.
    fn write(&mut self, piece: &[u8]) -> Result<usize, Failed>
        requires { 0 < length piece.now }
        ensures some { IfOk result (λ n. 0 < n) }
        ensures room { IfOk result (λ n. n ≤ length piece.now) }
        ensures taken { IfOk result (λ n. Took (taken self.old) (taken self.new) (take n piece.now)) }
        ensures failed { OnErr result (HasRisen (faults self.old) (faults self.new)) }
        ensures kept { OnErr result (Took (taken self.old) (taken self.new) []) }
        ensures never_falls { faults self.old ≤ faults self.new };
}
