//! Where the out-edges of each vertex start.
ghost use Rattle.std.specs.Prelude.{◌≡◌, IfOk};
ghost use Rattle.graph_model.specs.Graph.{IsGraph};
ghost use Rattle.edge_columns.specs.Starts.{starts_of};

use graph_model::Edge;
use std::alloc::{AllocError, Global};

/// For each vertex, and one past the last, the number of edges with a lower source.
pub(crate) fn starts(alloc: Global, nodes: u32, edges: &[Edge]) -> Result<Vec<u32>, AllocError>
    requires { IsGraph (record { nodes = nodes; edges = edges.now }) }
    ensures { IfOk result (λ starts. starts.items ≡ starts_of (record { nodes = nodes; edges = edges.now })) }
{
    let past = nodes as usize + 1;
    let mut starts = Vec::with_capacity(alloc, past)?;
    for (place, edge) in edges.iter().enumerate() {
        let source = edge.src as usize;
        if starts.len() <= source {
            starts.resize(source + 1, place as u32)?;
        }
    }
    starts.resize(past, edges.len() as u32)?;
    Ok(starts)
}
