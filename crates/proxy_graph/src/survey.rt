//! What one pass over the edges tells of them.
ghost use Rattle.std.specs.Prelude.{All, IfOk, IsTrue};
ghost use Rattle.graph_model.specs.Graph.{IsWithin, IsBySource};
ghost use Rattle.proxy_graph.specs.Numbering.{AreMarks};

use graph_model::Edge;
use std::alloc::{AllocError, Global};
use update_bits::UpdateBits;

/// The set of the vertices that are ends of edges, and whether sources do not fall.
pub(crate) fn surveyed(
    alloc: Global,
    nodes: u32,
    edges: &[Edge],
) -> Result<(UpdateBits, bool), AllocError>
    requires { All (IsWithin nodes) edges.now }
    ensures marks { IfOk result (λ survey. AreMarks nodes edges.now survey.0) }
    ensures order { IfOk result (λ survey. IsTrue survey.1 → IsBySource edges.now) }
{
    let mut marks = UpdateBits::new(alloc, nodes)?;
    let mut is_by_source = true;
    let mut before = 0;
    for edge in edges {
        marks.set(edge.src);
        marks.set(edge.dst);
        if edge.src < before {
            is_by_source = false;
        }
        before = edge.src;
    }
    Ok((marks, is_by_source))
}
