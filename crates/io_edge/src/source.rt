//! Where bytes come from.
ghost use Rattle.std.specs.Prelude.{◌≡◌, ℕ, ◌<◌, ◌≤◌, List, [], length, take, drop, Option, IfOk, IfSome, OnOk, OnErr};
ghost use Rattle.io_edge.specs.Faults.{Rose};
ghost use Rattle.io_edge.specs.Bytes.{Gives};

use thiserror::Error;

/// A read failed.
#[derive(Clone, Copy, Debug, PartialEq, Eq, Drop, Error)]
#[error("a read failed")]
pub struct SourceFault;

/// Gives bytes, piece by piece.
pub trait Source {
    /// The bytes still to come, where the source tells them.
    ghost left: { Self → Option (List ℕ) };

    /// How many faults it met so far, at most 2^64 - 1.
    ghost faults: { Self → ℕ };

    /// Fills a front of `into`, and answers its length. `Ok(0)` for a piece that is not empty is the end.
    fn read(&mut self, into: &mut [u8]) -> Result<usize, SourceFault>
        ensures count { IfOk result (λ n. n ≤ length into.old) }
        ensures bytes { IfOk result (λ n. Gives (left self.old) (left self.new) (take n into.new)) }
        ensures rest { IfOk result (λ n. drop n into.new ≡ drop n into.old) }
        ensures end { IfOk result (λ n. n ≡ 0 → 0 < length into.old → IfSome (left self.new) (λ bytes. bytes ≡ [])) }
        ensures quiet { OnOk result (faults self.new ≡ faults self.old) }
        ensures rose { OnErr result (Rose (faults self.old) (faults self.new)) }
        ensures left_stays { OnErr result (left self.new ≡ left self.old) };
}
