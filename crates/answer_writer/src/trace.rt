//! The line of a packet.
ghost use Rattle.std.specs.Prelude.{◌≡◌, ◌≤◌, length};
ghost use Rattle.hex.specs.Hex.{encode_lower};
ghost use Rattle.io_edge.specs.Writing.{Wrote};
ghost use Rattle.answer_writer.specs.Trace.{leg_word, trace_head, trace_line};

use super::words::write_spaced_number;
use hex::encode_to_slice;
use io_edge::{Sink, SinkFault, write_whole};
use packet_table::{ChannelSpec, Leg};

/// How many bytes of a payload go out at a time.
const PIECE: usize = 2048;

/// Writes the line of a packet that was sent in a round: the round's number, the leg, the host that
/// sends, the host that receives, and the payload in small hexadecimal digits. The room of the channel
/// is not written.
pub fn write_trace<K: Sink>(
    sink: &mut K,
    round: u64,
    spec: ChannelSpec,
    payload: &[u8],
) -> Result<(), SinkFault>
    ensures written { Wrote K.Sink result sink.old sink.new (trace_line round spec payload.now) }
{
    write_head(sink, round, spec)?;
    write_hex(sink, payload)?;
    write_whole(sink, b"\n")
}

/// Writes what stands before a packet's payload.
fn write_head<K: Sink>(sink: &mut K, round: u64, spec: ChannelSpec) -> Result<(), SinkFault>
    ensures written { Wrote K.Sink result sink.old sink.new (trace_head round spec) }
{
    write_whole(sink, b"round")?;
    write_spaced_number(sink, round)?;
    write_leg(sink, spec.leg)?;
    write_spaced_number(sink, spec.from as u64)?;
    write_spaced_number(sink, spec.to as u64)?;
    write_whole(sink, b" ")
}

/// Writes the word of a leg behind a space.
fn write_leg<K: Sink>(sink: &mut K, leg: Leg) -> Result<(), SinkFault>
    ensures written { Wrote K.Sink result sink.old sink.new (leg_word leg) }
{
    match leg {
        Leg::Reduce => write_whole(sink, b" reduce"),
        Leg::Spread => write_whole(sink, b" spread"),
    }
}

/// Writes bytes in small hexadecimal digits, piece by piece.
fn write_hex<K: Sink>(sink: &mut K, bytes: &[u8]) -> Result<(), SinkFault>
    ensures written { Wrote K.Sink result sink.old sink.new (encode_lower bytes.now) }
{
    let pieces = bytes.len() / PIECE;
    for piece in 0..pieces {
        write_hex_piece(sink, &bytes[piece * PIECE..piece * PIECE + PIECE])?;
    }
    write_hex_piece(sink, &bytes[pieces * PIECE..])
}

/// Writes a piece in small hexadecimal digits.
fn write_hex_piece<K: Sink>(sink: &mut K, bytes: &[u8]) -> Result<(), SinkFault>
    requires { length bytes.now ≤ PIECE }
    ensures written { Wrote K.Sink result sink.old sink.new (encode_lower bytes.now) }
{
    let mut digits = [0; 2 * PIECE];
    let text = &mut digits[..2 * bytes.len()];
    let _ = encode_to_slice(bytes, text);
    write_whole(sink, text)
}
