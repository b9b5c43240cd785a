//! A line of words and numbers, and a number alone.
ghost use Rattle.std.specs.Prelude.{◌≡◌, ◌≤◌, length, drop, decimal};
ghost use Rattle.io_edge.specs.Writing.{Wrote};
ghost use Rattle.answer_writer.specs.Lines.{spaced_number, spaced_numbers, words_line};

use super::digits::{
    SPACED_BYTES, U64_DIGITS, put_byte, put_bytes, put_number, put_spaced_number,
    put_spaced_numbers,
};
use io_edge::{Sink, SinkFault, write_whole};

/// The most bytes of the text of a short line, which goes out by one write.
const SHORT_TEXT: usize = 64;

/// The most numbers of a short line.
const FEW_NUMBERS: usize = 8;

/// The most bytes of a short line.
const LINE_BYTES: usize = SHORT_TEXT + FEW_NUMBERS * SPACED_BYTES + 1;

/// Writes a line: the text `first`, and each number after one space. A line of a text of at most 64 bytes and
/// at most 8 numbers is put together first, and goes out whole where the sink takes it so.
pub fn write_words<K: Sink>(sink: &mut K, first: &str, numbers: &[u64]) -> Result<(), SinkFault>
    ensures written { Wrote K.Sink result sink.old sink.new (words_line first.now numbers.now) }
{
    if first.len() <= SHORT_TEXT && numbers.len() <= FEW_NUMBERS {
        return write_short_line(sink, first.as_bytes(), numbers);
    }
    write_long_line(sink, first.as_bytes(), numbers)
}

/// Writes a line that fits a small piece of memory, by one write where the sink takes it whole.
fn write_short_line<K: Sink>(sink: &mut K, first: &[u8], numbers: &[u64]) -> Result<(), SinkFault>
    requires { (length first.now ≤ SHORT_TEXT) × (length numbers.now ≤ FEW_NUMBERS) }
    ensures written { Wrote K.Sink result sink.old sink.new (words_line first.now numbers.now) }
{
    let mut line = [0; LINE_BYTES];
    let start = put_words(&mut line, first, numbers);
    write_whole(sink, &line[start..])
}

/// Puts a short line at the end of `line`, and answers where it begins.
fn put_words(line: &mut [u8], first: &[u8], numbers: &[u64]) -> usize
    requires room { length line.old ≡ LINE_BYTES }
    requires short { (length first.now ≤ SHORT_TEXT) × (length numbers.now ≤ FEW_NUMBERS) }
    ensures start { result ≤ LINE_BYTES }
    ensures written { drop result line.new ≡ words_line first.now numbers.now }
{
    let newline = put_byte(line, LINE_BYTES, b'\n');
    let spaces = put_spaced_numbers(line, newline, numbers);
    put_bytes(line, spaces, first)
}

/// Writes a line of any length, number by number.
fn write_long_line<K: Sink>(sink: &mut K, first: &[u8], numbers: &[u64]) -> Result<(), SinkFault>
    ensures written { Wrote K.Sink result sink.old sink.new (words_line first.now numbers.now) }
{
    write_whole(sink, first)?;
    write_spaced_numbers(sink, numbers)?;
    write_whole(sink, b"\n")
}

/// Writes the decimal digits of `n`, and nothing else.
pub fn write_number<K: Sink>(sink: &mut K, n: u64) -> Result<(), SinkFault>
    ensures written { Wrote K.Sink result sink.old sink.new (decimal n) }
{
    let mut digits = [0; U64_DIGITS];
    let start = put_number(&mut digits, U64_DIGITS, n);
    write_whole(sink, &digits[start..])
}

/// Writes each number after one space.
fn write_spaced_numbers<K: Sink>(sink: &mut K, numbers: &[u64]) -> Result<(), SinkFault>
    ensures written { Wrote K.Sink result sink.old sink.new (spaced_numbers numbers.now) }
{
    for n in numbers {
        write_spaced_number(sink, *n)?;
    }
    Ok(())
}

/// Writes a space, and then the number.
pub(crate) fn write_spaced_number<K: Sink>(sink: &mut K, n: u64) -> Result<(), SinkFault>
    ensures written { Wrote K.Sink result sink.old sink.new (spaced_number n) }
{
    let mut text = [0; SPACED_BYTES];
    let start = put_spaced_number(&mut text, SPACED_BYTES, n);
    write_whole(sink, &text[start..])
}
