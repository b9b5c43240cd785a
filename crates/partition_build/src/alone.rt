//! The local graph of the one host there is.
ghost use Rattle.std.specs.Prelude.{◌≡◌, IfOk};
ghost use Rattle.graph_division.specs.Partition.{IsPartition};
ghost use Rattle.share_plan.specs.Owners.{shares_of};

use cusp_rules::Masters;
use edge_columns::EdgeColumns;
use edge_owner::Rules;
use graph_model::Way;
use proxy_graph::LocalGraph;
use std::alloc::{AllocError, Global};

/// The local graph of the one host there is, whatever the rules: all edges are there, in file order, and the
/// columns are kept as they stand. Arcs are laid for this way.
pub(crate) fn build_alone(
    alloc: Global,
    way: Way,
    columns: EdgeColumns,
    rules: Rules,
) -> Result<Vec<LocalGraph>, AllocError>
    ensures shares { IfOk result (λ graphs. graphs.items ≡ shares_of rules 1 columns) }
    ensures partition { IfOk result (λ graphs. IsPartition graphs.items) }
{
    let masters = Masters::new(alloc, rules.masters, 1, columns.starts())?;
    let graph = LocalGraph::of_columns(alloc, way, &masters, columns)?;
    let mut graphs = Vec::with_capacity(alloc, usize::from(masters.hosts()))?;
    graphs.push(graph)?;
    Ok(graphs)
}
