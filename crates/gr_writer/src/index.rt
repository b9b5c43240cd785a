//! The index of a file.
ghost use Rattle.std.specs.Prelude.{◌≡◌, ◌≤◌};
ghost use Rattle.io_edge.specs.Writing.{Wrote};
ghost use Rattle.graph_model.specs.Graph.{IsBySource};
ghost use Rattle.gr_writer.specs.File.{end_of, index_of};

use graph_model::Edge;
use io_edge::{Sink, SinkFault, write_whole};

/// Where the range of a node ends, from a place that does not lie behind that.
fn range_end(edges: &[Edge], start: usize, node: u32) -> usize
    requires before { start ≤ end_of edges.now node }
    requires sorted { IsBySource edges.now }
    ensures { result ≡ end_of edges.now node }
{
    let mut end = start;
    while end < edges.len() && edges[end].src <= node {
        end += 1;
    }
    end
}

/// Writes where the range of each node ends.
pub(crate) fn write_index<K: Sink>(
    sink: &mut K,
    nodes: u32,
    edges: &[Edge],
) -> Result<(), SinkFault>
    requires { IsBySource edges.now }
    ensures { Wrote K.Sink result sink.old sink.new (index_of nodes edges.now) }
{
    let mut end = 0;
    for node in 0..nodes {
        end = range_end(edges, end, node);
        write_whole(sink, &(end as u64).to_le_bytes())?;
    }
    Ok(())
}
