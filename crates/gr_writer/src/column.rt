//! A column of a list of edges.
ghost use Rattle.std.specs.Prelude.{◌≡◌};
ghost use Rattle.list_laws.specs.LittleEndian.{le_text};
ghost use Rattle.io_edge.specs.Writing.{Wrote};
ghost use Rattle.gr_writer.specs.Column.{entry_of, entries_of};

use graph_model::Edge;
use io_edge::{Sink, SinkFault, write_whole};

/// What the file has of each edge, as a number of four bytes.
#[derive(Clone, Copy)]
pub(crate) enum Column {
    Destinations,
    Weights,
}

/// What a column has of an edge.
fn entry(column: Column, edge: &Edge) -> u32
    ensures { result ≡ entry_of column edge.now }
{
    match column {
        Column::Destinations => edge.dst,
        Column::Weights => edge.weight,
    }
}

/// Writes a column of these edges.
pub(crate) fn write_column<K: Sink>(
    sink: &mut K,
    column: Column,
    edges: &[Edge],
) -> Result<(), SinkFault>
    ensures { Wrote K.Sink result sink.old sink.new (le_text 4 (entries_of column edges.now)) }
{
    for edge in edges {
        write_whole(sink, &entry(column, edge).to_le_bytes())?;
    }
    Ok(())
}
