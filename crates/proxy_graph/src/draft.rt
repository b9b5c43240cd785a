//! A local graph in the making.
ghost use Rattle.std.specs.Prelude.{◌≡◌, ◌<◌, ◌≤◌, length, All, IfOk};
ghost use Rattle.graph_model.specs.Graph.{most_nodes, most_edges, IsWithin, IsBySource};
ghost use Rattle.graph_division.specs.Shares.{in_file_order};
ghost use Rattle.proxy_graph.specs.Drafts.{IsDraftOf};
ghost use Rattle.proxy_graph.specs.Numbering.{AreMarks};

use crate::columns::Columns;
use crate::file_order::by_source;
use crate::numbering::Numbering;
use crate::survey::surveyed;
use cusp_rules::Masters;
use graph_model::Edge;
use std::alloc::{AllocError, Global};
use update_bits::UpdateBits;

/// A local graph whose edges are written down by column, and not yet laid by their ends. The edges that it
/// was made of are no longer needed.
#[derive(Drop)]
pub(crate) struct Draft {
    pub(crate) host: u16,
    pub(crate) nodes: u32,
    pub(crate) masters: Masters,
    /// The first vertex whose master is here, and how many there are: they lie side by side.
    pub(crate) first: u32,
    pub(crate) count: u32,
    /// The vertices of the mirrors, rising.
    pub(crate) mirrors: Vec<u32>,
    pub(crate) columns: Columns,
}

impl Draft {
    /// The draft of a host's local graph with these edges, by source.
    pub(crate) fn new(
        alloc: Global,
        host: u16,
        masters: &Masters,
        nodes: u32,
        edges: &[Edge],
    ) -> Result<Draft, AllocError>
        requires host { host < masters.now.hosts }
        requires nodes { nodes ≡ length masters.now.masters }
        requires few_nodes { nodes ≤ most_nodes }
        requires few_edges { length edges.now ≤ most_edges }
        requires within { All (IsWithin nodes) edges.now }
        ensures { IfOk result (λ draft. IsDraftOf (record { host = host; hosts = masters.now.hosts; masters = masters.now.masters; edges = in_file_order nodes edges.now }) draft) }
    {
        let (marks, is_by_source) = surveyed(alloc, nodes, edges)?;
        if is_by_source {
            return Draft::in_order(alloc, host, masters, nodes, marks, edges);
        }
        let edges = by_source(alloc, nodes, edges)?;
        Draft::in_order(alloc, host, masters, nodes, marks, edges.as_slice())
    }

    /// The draft of edges whose sources do not fall and whose ends have marks.
    fn in_order(
        alloc: Global,
        host: u16,
        masters: &Masters,
        nodes: u32,
        marks: UpdateBits,
        edges: &[Edge],
    ) -> Result<Draft, AllocError>
        requires host { host < masters.now.hosts }
        requires nodes { nodes ≡ length masters.now.masters }
        requires few_nodes { nodes ≤ most_nodes }
        requires few_edges { length edges.now ≤ most_edges }
        requires within { All (IsWithin nodes) edges.now }
        requires by_source { IsBySource edges.now }
        requires marks { AreMarks nodes edges.now marks }
        ensures { IfOk result (λ draft. IsDraftOf (record { host = host; hosts = masters.now.hosts; masters = masters.now.masters; edges = edges.now }) draft) }
    {
        let (first, end) = masters.range(host);
        let masters = masters.try_clone(alloc)?;
        let count = end - first;
        let numbering = Numbering::new(alloc, first, count, marks)?;
        let mirrors = numbering.mirrors(alloc)?;
        let columns = Columns::new(alloc, &numbering, edges)?;
        Ok(Draft {
            host,
            nodes,
            masters,
            first,
            count,
            mirrors,
            columns,
        })
    }
}
