//! The source of each edge.
ghost use Rattle.std.specs.Prelude.{◌≡◌, ◌+◌, ◌<◌, ◌≤◌, length, slice_index, IfOk};
ghost use Rattle.list_laws.specs.Rising.{NeverFalls};
ghost use Rattle.graph_model.specs.Graph.{most_nodes};
ghost use Rattle.edge_columns.specs.Columns.{sources_by};

use std::alloc::{AllocError, Global};

/// The source of each edge, where each node's edges start at its entry and end at the next. Takes memory for
/// so many edges at the first, and for more where there are more.
pub(crate) fn sources(alloc: Global, starts: &[u32], edges: usize) -> Result<Vec<u32>, AllocError>
    requires some { 0 < length starts.now }
    requires nodes_fit { length starts.now ≤ most_nodes + 1 }
    requires begins { slice_index starts.now 0 ≡ 0 }
    requires rising { NeverFalls 0 starts.now }
    ensures { IfOk result (λ sources. sources.items ≡ sources_by starts.now) }
{
    let mut sources = Vec::with_capacity(alloc, edges)?;
    for node in 0..starts.len() - 1 {
        sources.resize(starts[node + 1] as usize, node as u32)?;
    }
    Ok(sources)
}
