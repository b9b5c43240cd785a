//! Local graphs are made of the edges of each host, with arcs laid for one way.
ghost use Rattle.std.specs.Prelude.{◌≡◌, ◌≤◌, length, All, IfOk, vec_len};
ghost use Rattle.graph_model.specs.Graph.{most_nodes};
ghost use Rattle.edge_columns.specs.Starts.{starts_of};
ghost use Rattle.partition_build.specs.Rooms.{IsRoom, shares_from, shares_by_source};

use graph_model::{Edge, EdgeList, Way};
use proxy_graph::LocalGraph;
use share_plan::SharePlan;
use std::alloc::{AllocError, Global};

/// The local graph of each host, of the edges in its room. A room is given up as soon as its graph is made.
pub(crate) fn assemble_each(
    alloc: Global,
    way: Way,
    nodes: u32,
    plan: &SharePlan,
    rooms: Vec<Vec<Edge>>,
) -> Result<Vec<LocalGraph>, AllocError>
    requires nodes { nodes ≡ length plan.now.masters }
    requires few { nodes ≤ most_nodes }
    requires hosts { vec_len rooms ≡ plan.now.hosts }
    requires few_hosts { plan.now.hosts ≤ 64 }
    requires rooms { All (IsRoom nodes) rooms.items }
    ensures { IfOk result (λ graphs. graphs.items ≡ shares_from plan.now nodes 0 rooms.items) }
{
    let mut graphs = Vec::with_capacity(alloc, rooms.len())?;
    for edges in rooms {
        let host = graphs.len() as u16;
        graphs.push(LocalGraph::assemble_for(alloc, way, host, plan.masters(), nodes, &edges)?)?;
    }
    Ok(graphs)
}

/// The local graph of each host, where the masters of sources own the edges: those of a host lie side by
/// side in the list, and are not copied.
pub(crate) fn assemble_by_source(
    alloc: Global,
    way: Way,
    list: &EdgeList,
    plan: &SharePlan,
) -> Result<Vec<LocalGraph>, AllocError>
    requires nodes { list.now.nodes ≡ length plan.now.masters }
    requires starts { plan.now.starts ≡ starts_of list.now }
    ensures { IfOk result (λ graphs. graphs.items ≡ shares_by_source plan.now list.now plan.now.hosts) }
{
    let masters = plan.masters();
    let nodes = list.nodes();
    let mut graphs = Vec::with_capacity(alloc, usize::from(masters.hosts()))?;
    for host in 0..masters.hosts() {
        let edges = plan.edges_from(list, host);
        graphs.push(LocalGraph::assemble_for(alloc, way, host, masters, nodes, edges)?)?;
    }
    Ok(graphs)
}

/// The same of a list that is given up from its end: the last host's graph is made first, and the edges of a
/// host go as soon as its graph is made.
pub(crate) fn assemble_and_give_up(
    alloc: Global,
    way: Way,
    list: EdgeList,
    plan: &SharePlan,
) -> Result<Vec<LocalGraph>, AllocError>
    requires nodes { list.nodes ≡ length plan.now.masters }
    requires starts { plan.now.starts ≡ starts_of list }
    ensures { IfOk result (λ graphs. graphs.items ≡ shares_by_source plan.now list plan.now.hosts) }
{
    let masters = plan.masters();
    let nodes = list.nodes();
    let mut edges = list.into_edges();
    let mut graphs = Vec::with_capacity(alloc, usize::from(masters.hosts()))?;
    for host in (0..masters.hosts()).rev() {
        let place = plan.place_from(host);
        graphs.push(LocalGraph::assemble_for(alloc, way, host, masters, nodes, &edges[place..])?)?;
        edges.truncate(place);
        edges.shrink_to_fit();
    }
    graphs.reverse();
    Ok(graphs)
}
