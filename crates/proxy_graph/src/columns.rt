//! The arcs of a host's edges, column by column.
ghost use Rattle.std.specs.Prelude.{◌≡◌, ◌^◌, ◌+◌, ◌<◌, ◌≤◌, length, map, slice_index, All, IfOk, IfSome, OnOk};
ghost use Rattle.graph_model.specs.Graph.{most_edges, IsWithin, IsWeighed};
ghost use Rattle.proxy_graph.specs.Numbering.{table_of};
ghost use Rattle.proxy_graph.specs.Sides.{Out, key_of, end_of};

use crate::numbering::Numbering;
use graph_model::Edge;
use std::alloc::{AllocError, Global};

/// Arcs in the order of their edges: at each place stand the local numbers of an arc's tail and head, and
/// its weight.
#[derive(Drop)]
pub(crate) struct Columns {
    pub(crate) tails: Vec<u32>,
    pub(crate) heads: Vec<u32>,
    pub(crate) weights: Vec<u32>,
}

/// The weight of an edge.
fn weight_of(edge: Edge) -> u32
    ensures { result ≡ edge.weight }
{
    edge.weight
}

/// The local number of a source. In `before` are the source of the edge before and its number, which is
/// taken again where this source is the same.
fn tail_of(numbering: &Numbering, before: Option<(u32, u32)>, source: u32) -> u32
    requires known { source < length numbering.now.mirrored }
    requires few { numbering.now.count + length numbering.now.mirrored < 2 ^ 32 }
    requires before { IfSome before (λ known. known.1 ≡ slice_index (table_of numbering.now) known.0) }
    ensures { result ≡ slice_index (table_of numbering.now) source }
{
    match before {
        Some((last, tail)) if last == source => tail,
        _ => numbering.lid(source),
    }
}

impl Columns {
    /// The arcs of these edges, whose ends have proxies here.
    pub(crate) fn new(
        alloc: Global,
        numbering: &Numbering,
        edges: &[Edge],
    ) -> Result<Columns, AllocError>
        requires few_edges { length edges.now ≤ most_edges }
        requires within { All (IsWithin (length numbering.now.mirrored)) edges.now }
        requires few { numbering.now.count + length numbering.now.mirrored < 2 ^ 32 }
        ensures tails { IfOk result (λ columns. columns.tails.items ≡ map (key_of Out (table_of numbering.now)) edges.now) }
        ensures heads { IfOk result (λ columns. columns.heads.items ≡ map (end_of Out (table_of numbering.now)) edges.now) }
        ensures weights { IfOk result (λ columns. columns.weights.items ≡ map (λ edge. edge.weight) edges.now) }
        ensures weighed { OnOk result (All IsWeighed edges.now) }
    {
        let mut tails = Vec::with_capacity(alloc, edges.len())?;
        let mut heads = Vec::with_capacity(alloc, edges.len())?;
        let mut weights = Vec::with_capacity(alloc, edges.len())?;
        let mut before = None;
        for edge in edges {
            let tail = tail_of(numbering, before, edge.src);
            before = Some((edge.src, tail));
            tails.push(tail)?;
            heads.push(numbering.lid(edge.dst))?;
            weights.push(weight_of(*edge))?;
        }
        Ok(Columns {
            tails,
            heads,
            weights,
        })
    }
}
