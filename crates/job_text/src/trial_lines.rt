//! The text of what the four programs find on a made graph.
ghost use Rattle.std.specs.Prelude.{◌≡◌};
ghost use Rattle.io_edge.specs.Writing.{Wrote};
ghost use Rattle.job_text.specs.Trials.{size_lines, program_lines, summary_line, trial_text};

use crate::lines::write_after_number;
use answer_writer::{write_number, write_words};
use graph_maker::Summary;
use io_edge::{Sink, SinkFault, write_whole};
use trial_runs::Trial;

/// Writes what the four programs find: the size of the graph, and a line for each program.
pub(crate) fn write_trial<K: Sink>(sink: &mut K, trial: Trial) -> Result<(), SinkFault>
    ensures written { Wrote K.Sink result sink.old sink.new (trial_text trial) }
{
    write_size(sink, trial)?;
    write_programs(sink, trial)
}

/// Writes how many vertices and how many edges the graph has.
fn write_size<K: Sink>(sink: &mut K, trial: Trial) -> Result<(), SinkFault>
    ensures written { Wrote K.Sink result sink.old sink.new (size_lines trial) }
{
    write_words(sink, "nodes", &[u64::from(trial.nodes)])?;
    write_words(sink, "edges", &[u64::from(trial.edges)])
}

/// Writes a line for each program.
fn write_programs<K: Sink>(sink: &mut K, trial: Trial) -> Result<(), SinkFault>
    ensures written { Wrote K.Sink result sink.old sink.new (program_lines trial) }
{
    write_summary(sink, "bfs reached ", trial.distances)?;
    write_summary(sink, "sssp reached ", trial.costs)?;
    write_words(sink, "cc labels", &[trial.labels])?;
    write_words(sink, "core 8 members", &[trial.members])
}

/// Writes the line of a program that reaches vertices: how many, and the sum and the greatest of their values.
fn write_summary<K: Sink>(sink: &mut K, before: &str, summary: Summary) -> Result<(), SinkFault>
    ensures written { Wrote K.Sink result sink.old sink.new (summary_line before.now summary) }
{
    write_whole(sink, before.as_bytes())?;
    write_number(sink, summary.reached)?;
    write_after_number(sink, " sum ", summary.sum, " greatest", &[summary.greatest])
}
