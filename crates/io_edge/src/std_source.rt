//! A source over a reader of std.
ghost use Rattle.std.specs.Prelude.{◌≡◌, ℕ, ◌≤◌, length, drop, None, IfOk, OnOk, OnErr};
ghost use Rattle.io_edge.specs.Faults.{Rose, count_up};

use super::pieces::fill_front;
use super::source::{Source, SourceFault};
use std::io::Read;
use std::marker::Model;

/// The most bytes that one read asks of the reader.
const BUFFER_BYTES: usize = 16_384;

/// Gives the bytes of a reader of std, and counts its errors. It is seen as that count, and tells nothing of
/// the reader's bytes.
#[derive(Drop)]
pub struct StdSource<R> {
    inner: R,
    faults: u64,
    buffer: [u8; BUFFER_BYTES],
}

impl<R> Model for StdSource<R> {
    ghost use Rattle.std.specs.Prelude.{ℕ};

    ghost Value = { ℕ };

    ghost view = { λ s. s.faults };
}

impl<R: Read + Drop> StdSource<R> {
    /// A source over `inner` that has met no fault.
    pub fn new(inner: R) -> StdSource<R>
        ensures { result ≡ 0 }
    {
        StdSource {
            inner,
            faults: 0,
            buffer: [0; BUFFER_BYTES],
        }
    }
}

impl<R: Read + Drop> Source for StdSource<R> {
    ghost left = { λ _. None };

    ghost faults = { λ s. s };

    /// Gives what one read of the reader gives, at most 16,384 bytes. Each error of it is a fault.
    fn read(&mut self, into: &mut [u8]) -> Result<usize, SourceFault>
        ensures count { IfOk result (λ n. n ≤ length into.old) }
        ensures rest { IfOk result (λ n. drop n into.new ≡ drop n into.old) }
        ensures quiet { OnOk result (self.new ≡ self.old) }
        ensures counted { OnErr result (self.new ≡ count_up self.old) }
        ensures rose { OnErr result (Rose self.old self.new) }
    {
        let room = into.len().min(BUFFER_BYTES);
        let buffer = &mut self.buffer[..];
        match self.inner.read(&mut buffer[..room]) {
            Ok(count) => Ok(fill_front(&buffer[..count], into)),
            Err(_) => {
                self.faults = self.faults.saturating_add(1);
                Err(SourceFault)
            }
        }
    }
}
