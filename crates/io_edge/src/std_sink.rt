//! A sink over a writer of std.
ghost use Rattle.std.specs.Prelude.{◌≡◌, ℕ, ◌<◌, ◌≤◌, length, None, IfOk, OnOk, OnErr};
ghost use Rattle.io_edge.specs.Faults.{Rose, count_up};
ghost use Rattle.io_edge.specs.Behind.{Passes, nothing_behind};

use super::sink::{Sink, SinkFault};
use std::io::Write;
use std::marker::Model;

/// Passes bytes on to a writer of std, and counts its errors. It is seen as that count, and tells nothing of
/// the writer's bytes.
#[derive(Drop)]
pub struct StdSink<W> {
    inner: W,
    faults: u64,
}

impl<W> Model for StdSink<W> {
    ghost use Rattle.std.specs.Prelude.{ℕ};

    ghost Value = { ℕ };

    ghost view = { λ s. s.faults };
}

impl<W: Write + Drop> StdSink<W> {
    /// A sink over `inner` that has met no fault.
    pub fn new(inner: W) -> StdSink<W>
        ensures { result ≡ 0 }
    {
        StdSink { inner, faults: 0 }
    }
}

impl<W: Write + Drop> Sink for StdSink<W> {
    ghost held = { λ _. None };

    ghost faults = { λ s. s };

    /// Passes a front of `bytes` on. That the writer takes nothing of a piece that is not empty is a fault too.
    fn write(&mut self, bytes: &[u8]) -> Result<usize, SinkFault>
        ensures count { IfOk result (λ n. n ≤ length bytes.now) }
        ensures progress { IfOk result (λ n. 0 < length bytes.now → 0 < n) }
        ensures quiet { OnOk result (self.new ≡ self.old) }
        ensures counted { OnErr result (self.new ≡ count_up self.old) }
        ensures rose { OnErr result (Rose self.old self.new) }
        ensures passed { Passes nothing_behind nothing_behind }
    {
        match self.inner.write(bytes) {
            Ok(count) if count > 0 || bytes.is_empty() => Ok(count),
            _ => {
                self.faults = self.faults.saturating_add(1);
                Err(SinkFault)
            }
        }
    }
}
