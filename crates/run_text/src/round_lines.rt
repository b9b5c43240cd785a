//! The lines of a round's packets.
ghost use Rattle.std.specs.Prelude.{◌≡◌, length};
ghost use Rattle.std.specs.List.{flat_map, range_with_len};
ghost use Rattle.io_edge.specs.Writing.{Wrote};
ghost use Rattle.run_text.specs.Lines.{channel_line};

use answer_writer::write_trace;
use io_edge::{Sink, SinkFault};
use packet_table::Channels;

/// Writes a line for each channel, by its number, with what was last posted on it: the packets of a round,
/// once it is over.
pub fn write_round<K: Sink>(sink: &mut K, round: u64, channels: &Channels) -> Result<(), SinkFault>
    ensures written { Wrote K.Sink result sink.old sink.new (flat_map (channel_line round channels.now) (range_with_len 0 (length channels.now.specs))) }
{
    for id in 0..channels.count() {
        write_trace(sink, round, channels.spec(id), channels.payload(id))?;
    }
    Ok(())
}
