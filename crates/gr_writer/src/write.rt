//! The whole file of a graph.
ghost use Rattle.std.specs.Prelude.{◌≡◌, OnOk, OnErr, ◌++◌};
ghost use Rattle.list_laws.specs.LittleEndian.{le_text};
ghost use Rattle.io_edge.specs.Faults.{Rose};
ghost use Rattle.io_edge.specs.Bytes.{Gains, GainsPrefix};
ghost use Rattle.io_edge.specs.Writing.{Wrote};
ghost use Rattle.gr_writer.specs.File.{head_of, padding_of, weights_of, file_of, IsWritable};

use crate::column::{Column, write_column};
use crate::index::write_index;
use graph_model::{Edge, EdgeList};
use io_edge::{PagedSink, Sink, SinkFault, write_whole};

/// The version that is written.
const VERSION: u64 = 1;

/// Writes numbers of eight bytes.
fn write_numbers<K: Sink>(sink: &mut K, numbers: &[u64]) -> Result<(), SinkFault>
    ensures { Wrote K.Sink result sink.old sink.new (le_text 8 numbers.now) }
{
    for number in numbers {
        write_whole(sink, &number.to_le_bytes())?;
    }
    Ok(())
}

/// Writes the head.
fn write_head<K: Sink>(sink: &mut K, size: u32, list: &EdgeList) -> Result<(), SinkFault>
    ensures { Wrote K.Sink result sink.old sink.new (head_of size list.now) }
{
    let nodes = u64::from(list.nodes());
    let edges = list.edges().len() as u64;
    write_numbers(sink, &[VERSION, u64::from(size), nodes, edges])
}

/// Writes the padding.
fn write_padding<K: Sink>(sink: &mut K, edges: &[Edge]) -> Result<(), SinkFault>
    ensures { Wrote K.Sink result sink.old sink.new (padding_of edges.now) }
{
    if edges.len() % 2 == 1 {
        write_whole(sink, &[0; 4])?;
    }
    Ok(())
}

/// Writes the weights, where they have four bytes.
fn write_weights<K: Sink>(sink: &mut K, size: u32, edges: &[Edge]) -> Result<(), SinkFault>
    ensures { Wrote K.Sink result sink.old sink.new (weights_of size edges.now) }
{
    if size == 4 {
        write_column(sink, Column::Weights, edges)?;
    }
    Ok(())
}

/// Writes all sections of a file.
fn write_sections<K: Sink>(sink: &mut K, size: u32, list: &EdgeList) -> Result<(), SinkFault>
    ensures { Wrote K.Sink result sink.old sink.new (file_of size list.now) }
{
    let edges = list.edges();
    write_head(sink, size, list)?;
    write_index(sink, list.nodes(), edges)?;
    write_column(sink, Column::Destinations, edges)?;
    write_padding(sink, edges)?;
    write_weights(sink, size, edges)
}

/// Writes the file of a graph. A weight has `size` bytes: 4, or none where each weight is 1.
///
/// Where a write fails, a front of the file was written.
pub fn write_graph<K: Sink>(sink: &mut K, list: &EdgeList, size: u32) -> Result<(), SinkFault>
    requires { IsWritable size list.now.edges }
    ensures whole { OnOk result
        (Gains (K.held sink.old) (K.held sink.new) (file_of size list.now)) }
    ensures quiet { OnOk result (K.faults sink.new ≡ K.faults sink.old) }
    ensures rose { OnErr result (Rose (K.faults sink.old) (K.faults sink.new)) }
    ensures prefix { OnErr result
        (GainsPrefix (K.held sink.old) (K.held sink.new) (file_of size list.now)) }
{
    let mut page = PagedSink::new(sink);
    write_sections(&mut page, size, list)?;
    page.flush()
}
