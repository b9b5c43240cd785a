//! The lines of the classes of a partition.
ghost use Rattle.std.specs.Prelude.{◌≡◌};
ghost use Rattle.io_edge.specs.Writing.{Wrote};
ghost use Rattle.answer_writer.specs.Report.{class_line};
ghost use Rattle.partition_text.specs.Text.{classes_text};

use invariant_probe::classes;
use io_edge::{Sink, SinkFault, write_whole};
use proxy_graph::LocalGraph;

/// Writes a line for each class, and whether the partition is of it.
pub(crate) fn write_classes<K: Sink>(sink: &mut K, graphs: &[LocalGraph]) -> Result<(), SinkFault>
    ensures written { Wrote K.Sink result sink.old sink.new (classes_text graphs.now) }
{
    let classes = classes(graphs);
    write_class(sink, "no-out", classes.no_out)?;
    write_class(sink, "no-in", classes.no_in)?;
    write_class(sink, "no-both", classes.no_both)
}

/// Writes the line of a class.
fn write_class<K: Sink>(sink: &mut K, name: &str, holds: bool) -> Result<(), SinkFault>
    ensures written { Wrote K.Sink result sink.old sink.new (class_line name.now holds) }
{
    write_whole(sink, name.as_bytes())?;
    if holds {
        write_whole(sink, b" yes\n")
    } else {
        write_whole(sink, b" no\n")
    }
}
