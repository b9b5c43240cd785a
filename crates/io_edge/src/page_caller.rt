//! A caller that writes through a page, and knows what the sink below holds.
ghost use Rattle.std.specs.Prelude.{◌≡◌, ◌++◌, OnOk, OnErr};
ghost use Rattle.io_edge.specs.Faults.{Rose};
ghost use Rattle.io_edge.specs.Bytes.{Gains, GainsPrefix};

use super::paged_sink::PagedSink;
use super::sink::{Sink, SinkFault};
use super::whole::write_whole;

/// Writes both pieces through a page, which is flushed at the end. A write that fails ends it with no flush.
pub(crate) fn write_twice<K: Sink>(
    sink: &mut K,
    first: &[u8],
    second: &[u8],
) -> Result<(), SinkFault>
    ensures whole { OnOk result (Gains (K.held sink.old) (K.held sink.new) (first.now ++ second.now)) }
    ensures prefix { OnErr result (GainsPrefix (K.held sink.old) (K.held sink.new) (first.now ++ second.now)) }
    ensures quiet { OnOk result (K.faults sink.new ≡ K.faults sink.old) }
    ensures rose { OnErr result (Rose (K.faults sink.old) (K.faults sink.new)) }
{
    let mut page = PagedSink::new(sink);
    write_whole(&mut page, first)?;
    write_whole(&mut page, second)?;
    page.flush()
}
