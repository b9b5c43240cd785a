//! A page of bytes before a sink.
ghost use Rattle.std.specs.Prelude.{◌≤◌};

use super::pieces::put_at;
use super::sink::{Sink, SinkFault};

/// The bytes of a page.
const PAGE_BYTES: usize = 8_192;

/// Gathers what is written in a page, and passes it on to the sink below where the page is full and by `flush`.
/// What still waits when it goes out of use is not written.
#[derive(Drop)]
pub struct PagedSink<'a, K> {
    below: &'a mut K,
    page: [u8; PAGE_BYTES],
    first: usize,
    end: usize,
    ghost in_order: { first ≤ end },
    ghost in_page: { end ≤ 8192 },
}

impl<'a, K: Sink> PagedSink<'a, K> {
    ghost use Rattle.std.specs.Prelude.{◌≡◌, []};
    ghost use Rattle.io_edge.specs.Paged.{waiting};

    /// An empty page before the sink `below`.
    pub fn new(below: &'a mut K) -> PagedSink<'a, K>
        ensures same_reference { result.below.ghost_name ≡ below.entry.ghost_name }
        ensures same_sink { result.below.now ≡ below.entry.now }
        ensures empty { waiting result ≡ [] }
    {
        PagedSink {
            below,
            page: [0; PAGE_BYTES],
            first: 0,
            end: 0,
        }
    }
}

impl<K: Sink> PagedSink<'_, K> {
    ghost use Rattle.std.specs.Prelude.{◌≡◌, ◌≤◌, ◌+◌, ◌++◌, [], length, OnOk, OnErr};
    ghost use Rattle.io_edge.specs.Writing.{Wrote};
    ghost use Rattle.io_edge.specs.Paged.{paged_held, waiting};

    /// Passes on all that waits. Where a write of the sink below fails, a front of what waited was passed on,
    /// and the rest still waits.
    pub fn flush(&mut self) -> Result<(), SinkFault>
        ensures same_reference { self.new.below.ghost_name ≡ self.old.below.ghost_name }
        ensures below { Wrote K.Sink result self.old.below.now self.new.below.now (waiting self.old) }
        ensures kept { paged_held K.Sink self.new ≡ paged_held K.Sink self.old }
        ensures empty { OnOk result (waiting self.new ≡ []) }
        ensures room { OnOk result (self.new.end ≡ 0) }
    {
        while self.first < self.end {
            let page = &self.page[..];
            self.first += self.below.write(&page[self.first..self.end])?;
        }
        self.first = 0;
        self.end = 0;
        Ok(())
    }

    /// Puts `bytes` behind what waits.
    fn append(&mut self, bytes: &[u8])
        requires { self.old.end + length bytes.now ≤ 8192 }
        ensures same_below { self.new.below ≡ self.old.below }
        ensures waits { waiting self.new ≡ waiting self.old ++ bytes.now }
    {
        put_at(&mut self.page, self.end, bytes);
        self.end += bytes.len();
    }
}

impl<K: Sink> Sink for PagedSink<'_, K> {
    ghost use Rattle.std.specs.Prelude.{◌≡◌, ◌<◌, ◌≤◌, length, take, IfOk, OnOk, OnErr};
    ghost use Rattle.io_edge.specs.Faults.{Rose};
    ghost use Rattle.io_edge.specs.Bytes.{Gains};
    ghost use Rattle.io_edge.specs.Behind.{Passes};
    ghost use Rattle.io_edge.specs.Paged.{paged_behind, paged_held};

    ghost held = { paged_held K.Sink };

    ghost faults = { λ s. K.faults s.below.now };

    ghost behind = { paged_behind K.Sink };

    /// Takes all of a piece that fits the page, if need be once what waits was passed on, and of a larger piece
    /// what the sink below takes.
    fn write(&mut self, bytes: &[u8]) -> Result<usize, SinkFault> {
        if bytes.len() > PAGE_BYTES - self.end {
            self.flush()?;
            if bytes.len() > PAGE_BYTES {
                return self.below.write(bytes);
            }
        }
        self.append(bytes);
        Ok(bytes.len())
    }
}
