//! The line of a vertex's answer.
ghost use Rattle.std.specs.Prelude.{◌≡◌, ◌≤◌, length, drop};
ghost use Rattle.io_edge.specs.Writing.{Wrote};
ghost use Rattle.answer_writer.specs.Lines.{answer_line};

use super::digits::{put_byte, put_value};
use io_edge::{Sink, SinkFault, write_whole};
use itoa::write_digits;

/// The most bytes of a line: a `u32`, a space, a `u64` and a newline.
const LINE_BYTES: usize = 32;

/// Writes the line of the vertex `v`: its number, a space, and its value or `-` for none.
pub fn write_answer<K: Sink>(sink: &mut K, v: u32, value: Option<u64>) -> Result<(), SinkFault>
    ensures written { Wrote K.Sink result sink.old sink.new (answer_line v value) }
{
    let mut line = [0; LINE_BYTES];
    let start = put_answer(&mut line, v, value);
    write_whole(sink, &line[start..])
}

/// Puts the line of the vertex `v` at the end of `line`, and answers where it begins.
fn put_answer(line: &mut [u8], v: u32, value: Option<u64>) -> usize
    requires { length line.old ≡ LINE_BYTES }
    ensures start { result ≤ LINE_BYTES }
    ensures written { drop result line.new ≡ answer_line v value }
{
    let newline = put_byte(line, LINE_BYTES, b'\n');
    let value_start = put_value(line, newline, value);
    let space = put_byte(line, value_start, b' ');
    write_digits(u64::from(v), line, space)
}
