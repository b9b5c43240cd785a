//! The text of what is no run: masters and owners, proxies and lists, what programs find, or one line for a
//! fault.
ghost use Rattle.std.specs.Prelude.{◌≡◌, ◌++◌, decimal, OnOk, OnErr};
ghost use Rattle.io_edge.specs.Faults.{Rose};
ghost use Rattle.io_edge.specs.Bytes.{Gains, GainsPrefix};
ghost use Rattle.io_edge.specs.Writing.{Wrote};
ghost use Rattle.answer_writer.specs.Lines.{words_line};
ghost use Rattle.job_text.specs.Fault.{fault_line, line_text, spent_line};
ghost use Rattle.job_text.specs.Lines.{lines_text, AreFewLines};

use crate::fault::Fault;
use crate::line::Line;
use crate::owner_lines::write_owners;
use crate::trial_lines::write_trial;
use address_memo::Memo;
use answer_writer::{write_number, write_words};
use graph_model::{EdgeList, Way};
use io_edge::{PagedSink, Sink, SinkFault, write_whole};
use partition_text::write_partition;
use proxy_graph::LocalGraph;
use share_plan::SharePlan;
use trial_runs::Trial;

/// Lines that are written.
#[derive(Clone, Copy)]
pub enum Lines<'a> {
    /// A line for each vertex with its master, and then one for each edge with its owner.
    Owners(&'a EdgeList, &'a SharePlan),
    /// The proxies of each host, and the lists that the hosts agreed on.
    Divided {
        /// The local graph of each host.
        graphs: &'a [LocalGraph],
        /// The memo of each host.
        memos: &'a [Memo],
        /// How edges are followed.
        way: Way,
    },
    /// What the four programs find on a made graph.
    Trial(Trial),
    /// The line of a fault, which want of memory does not have.
    Fault(Fault),
}

/// Writes lines in whole pages. Where a write fails, a front of them was written.
pub fn write_lines<K: Sink>(sink: &mut K, lines: Lines<'_>) -> Result<(), SinkFault>
    requires { AreFewLines lines }
    ensures whole { OnOk result (Gains (K.held sink.old) (K.held sink.new) (lines_text lines.entry)) }
    ensures quiet { OnOk result (K.faults sink.new ≡ K.faults sink.old) }
    ensures rose { OnErr result (Rose (K.faults sink.old) (K.faults sink.new)) }
    ensures prefix { OnErr result (GainsPrefix (K.held sink.old) (K.held sink.new) (lines_text lines.entry)) }
{
    let mut page = PagedSink::new(sink);
    write_each_line(&mut page, lines)?;
    page.flush()
}

/// Writes lines one after another.
fn write_each_line<K: Sink>(sink: &mut K, lines: Lines<'_>) -> Result<(), SinkFault>
    requires { AreFewLines lines }
    ensures written { Wrote K.Sink result sink.old sink.new (lines_text lines.entry) }
{
    match lines {
        Lines::Owners(list, plan) => write_owners(sink, list, plan),
        Lines::Divided { graphs, memos, way } => write_partition(sink, graphs, memos, way),
        Lines::Trial(trial) => write_trial(sink, trial),
        Lines::Fault(fault) => write_fault(sink, fault),
    }
}

/// Writes the line of a fault, which want of memory does not have.
fn write_fault<K: Sink>(sink: &mut K, fault: Fault) -> Result<(), SinkFault>
    ensures written { Wrote K.Sink result sink.old sink.new (fault_line fault) }
{
    match fault.line() {
        Some(line) => write_line(sink, line),
        None => Ok(()),
    }
}

/// Writes the line of a run that is not at its end after all rounds that it might have. Where a write fails, a
/// front of the line was written.
pub fn write_spent<K: Sink>(sink: &mut K, budget: u64) -> Result<(), SinkFault>
    ensures written { Wrote K.Sink result sink.old sink.new (spent_line budget) }
{
    write_line(sink, Line::AroundNumber("fault: rounds ", budget, " spent"))
}

/// Writes a line.
fn write_line<K: Sink>(sink: &mut K, line: Line) -> Result<(), SinkFault>
    ensures written { Wrote K.Sink result sink.old sink.new (line_text line) }
{
    match line {
        Line::Text(text) => write_words(sink, text, &[]),
        Line::EndsWithNumber(text, number) => write_words(sink, text, &[number]),
        Line::AroundNumber(before, number, after) => {
            write_after_number(sink, before, number, after, &[])
        }
        Line::AroundAndEndsWithNumber(before, number, after, last) => {
            write_after_number(sink, before, number, after, &[last])
        }
    }
}

/// Writes a line with a number in its middle: `before`, the number, and then `after` and the numbers that
/// end the line.
pub(crate) fn write_after_number<K: Sink>(
    sink: &mut K,
    before: &str,
    number: u64,
    after: &str,
    numbers: &[u64],
) -> Result<(), SinkFault>
    ensures written { Wrote K.Sink result sink.old sink.new (before.now ++ decimal number ++ words_line after.now numbers.now) }
{
    write_whole(sink, before.as_bytes())?;
    write_number(sink, number)?;
    write_words(sink, after, numbers)
}
