//! A number that follows a text.
ghost use Rattle.std.specs.Prelude.{◌≡◌};
ghost use Rattle.io_edge.specs.Writing.{Wrote};
ghost use Rattle.partition_text.specs.Hosts.{number_after};

use answer_writer::write_number;
use io_edge::{Sink, SinkFault, write_whole};

/// Writes a text, and the number right after it.
pub(crate) fn write_number_after<K: Sink>(
    sink: &mut K,
    before: &str,
    n: u64,
) -> Result<(), SinkFault>
    ensures written { Wrote K.Sink result sink.old sink.new (number_after before.now n) }
{
    write_whole(sink, before.as_bytes())?;
    write_number(sink, n)
}
