//! The trait of what gives bytes: one call that reads, with a contract on the bytes left and on the count of faults.

ghost use Rattle.std.specs.Prelude.{◌≡◌, ℕ, ◌<◌, ◌≤◌, List, [], length, take, Option, IfOk, IfSome, OnErr};
ghost use Rattle.edge_io.specs.Edges.{HasRisen, Gave};

use crate::Failed;

/// Where bytes come from.
///
/// The meaning `left` is the bytes that are left, where the source tells them. The meaning `faults` is how many faults
/// it had; it never falls. A source gives bytes once: it neither goes back nor keeps what it gave.
pub trait Source {
    ghost left: { Self → Option (List ℕ) };

    ghost faults: { Self → ℕ };

    /// Reads the next bytes into the front of `into`, and says how many they are: 0 at the end alone.
    fn read(&mut self, into: &mut [u8]) -> Result<usize, Failed>
        requires { 0 < length into.old }
        ensures room { IfOk result (λ n. n ≤ length into.new) }
        ensures given { IfOk result (λ n. Gave (left self.old) (left self.new) (take n into.new)) }
        ensures end { IfOk result (λ n. n ≡ 0 → IfSome (left self.old) (λ bytes. bytes ≡ [])) }
        ensures failed { OnErr result (HasRisen (faults self.old) (faults self.new)) }
        ensures kept { OnErr result (Gave (left self.old) (left self.new) []) }
        ensures never_falls { faults self.old ≤ faults self.new };
}
