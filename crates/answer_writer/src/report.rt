//! The report of a run.
ghost use Rattle.std.specs.Prelude.{◌≡◌, ◌≤◌, length, drop};
ghost use Rattle.io_edge.specs.Writing.{Wrote};
ghost use Rattle.answer_writer.specs.Report.{named_line, count_line, class_line, yes_or_no, count_lines, class_lines, report_lines};

use super::digits::{put_byte, put_bytes};
use io_edge::{Sink, SinkFault, write_whole};
use itoa::Buffer;

/// The most bytes of a line: a name of 8 bytes, a space, a number of 40 digits and a newline.
const LINE_BYTES: usize = 50;

/// What a run counted, and the classes of its partition.
#[derive(Clone, Copy, Debug, PartialEq, Eq)]
pub struct Report {
    /// The number of rounds, with the last one, which changes nothing.
    pub rounds: u64,
    /// The number of packets of all rounds.
    pub packets: u64,
    /// The sum of the lengths of their payloads.
    pub bytes: u128,
    /// The number of mirrors of all hosts.
    pub mirrors: u64,
    /// No mirror has an arc out of it.
    pub no_out: bool,
    /// No mirror has an arc into it.
    pub no_in: bool,
    /// No mirror has both.
    pub no_both: bool,
}

/// Writes the seven lines of a report: four counts, and three classes with `yes` or `no`.
pub fn write_report<K: Sink>(sink: &mut K, report: &Report) -> Result<(), SinkFault>
    ensures written { Wrote K.Sink result sink.old sink.new (report_lines report.now) }
{
    write_counts(sink, report)?;
    write_classes(sink, report)
}

/// Writes the counts of a run.
fn write_counts<K: Sink>(sink: &mut K, report: &Report) -> Result<(), SinkFault>
    ensures written { Wrote K.Sink result sink.old sink.new (count_lines report.now) }
{
    write_count(sink, "rounds", u128::from(report.rounds))?;
    write_count(sink, "packets", u128::from(report.packets))?;
    write_count(sink, "bytes", report.bytes)?;
    write_count(sink, "mirrors", u128::from(report.mirrors))
}

/// Writes the classes of a run's partition.
fn write_classes<K: Sink>(sink: &mut K, report: &Report) -> Result<(), SinkFault>
    ensures written { Wrote K.Sink result sink.old sink.new (class_lines report.now) }
{
    write_class(sink, "no-out", report.no_out)?;
    write_class(sink, "no-in", report.no_in)?;
    write_class(sink, "no-both", report.no_both)
}

/// Writes the line of a count.
fn write_count<K: Sink>(sink: &mut K, name: &str, count: u128) -> Result<(), SinkFault>
    requires { length name.now ≤ 8 }
    ensures written { Wrote K.Sink result sink.old sink.new (count_line name.now count) }
{
    let mut digits = Buffer::new();
    write_named(sink, name, digits.format(count))
}

/// Writes the line of a class.
fn write_class<K: Sink>(sink: &mut K, name: &str, holds: bool) -> Result<(), SinkFault>
    requires { length name.now ≤ 8 }
    ensures written { Wrote K.Sink result sink.old sink.new (class_line name.now holds) }
{
    write_named(sink, name, if holds { "yes" } else { "no" })
}

/// Writes the line of a name and of what is told of it, by one write where the sink takes it whole.
fn write_named<K: Sink>(sink: &mut K, name: &str, told: &str) -> Result<(), SinkFault>
    requires { (length name.now ≤ 8) × (length told.now ≤ 40) }
    ensures written { Wrote K.Sink result sink.old sink.new (named_line name.now told.now) }
{
    let mut line = [0; LINE_BYTES];
    let start = put_named(&mut line, name.as_bytes(), told.as_bytes());
    write_whole(sink, &line[start..])
}

/// Puts the line of a name and of what is told of it at the end of `line`, and answers where it begins.
fn put_named(line: &mut [u8], name: &[u8], told: &[u8]) -> usize
    requires room { length line.old ≡ LINE_BYTES }
    requires short { (length name.now ≤ 8) × (length told.now ≤ 40) }
    ensures start { result ≤ LINE_BYTES }
    ensures written { drop result line.new ≡ named_line name.now told.now }
{
    let newline = put_byte(line, LINE_BYTES, b'\n');
    let told_start = put_bytes(line, newline, told);
    let space = put_byte(line, told_start, b' ');
    put_bytes(line, space, name)
}
