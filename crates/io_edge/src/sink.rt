//! Where bytes go.
ghost use Rattle.std.specs.Prelude.{◌≡◌, ℕ, ◌<◌, ◌≤◌, List, length, take, Option, IfOk, OnOk, OnErr};
ghost use Rattle.io_edge.specs.Faults.{Rose};
ghost use Rattle.io_edge.specs.Bytes.{Gains};
ghost use Rattle.io_edge.specs.Behind.{Behind, Passes, nothing_behind};

use thiserror::Error;

/// A write failed.
#[derive(Clone, Copy, Debug, PartialEq, Eq, Drop, Error)]
#[error("a write failed")]
pub struct SinkFault;

/// Takes bytes, piece by piece.
pub trait Sink {
    /// The bytes written so far, where the sink tells them.
    ghost held: { Self → Option (List ℕ) };

    /// How many faults it met so far, at most 2^64 - 1.
    ghost faults: { Self → ℕ };

    /// What stands behind a sink that passes its bytes on.
    ghost behind: { Self → Behind } = { λ _. nothing_behind };

    /// Takes a front of `bytes`, and answers its length, which is not 0 where `bytes` is not empty.
    fn write(&mut self, bytes: &[u8]) -> Result<usize, SinkFault>
        ensures count { IfOk result (λ n. n ≤ length bytes.now) }
        ensures progress { IfOk result (λ n. 0 < length bytes.now → 0 < n) }
        ensures gained { IfOk result (λ n. Gains (held self.old) (held self.new) (take n bytes.now)) }
        ensures quiet { OnOk result (faults self.new ≡ faults self.old) }
        ensures rose { OnErr result (Rose (faults self.old) (faults self.new)) }
        ensures held_stays { OnErr result (held self.new ≡ held self.old) }
        ensures passed { Passes (behind self.old) (behind self.new) };
}
