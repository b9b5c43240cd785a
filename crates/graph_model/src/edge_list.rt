//! A whole graph, in memory.
ghost use Rattle.std.specs.Prelude.{◌≡◌};

use crate::edge::Edge;
use std::marker::Model;

/// The most nodes of a graph.
pub const MAX_NODES: u32 = 16_777_216;

/// The most edges of a graph.
pub const MAX_EDGES: u32 = 67_108_864;

/// The nodes and the edges of a graph, edges in file order: by source, and for one source as they came.
#[derive(Debug, Drop)]
pub struct EdgeList {
    nodes: u32,
    edges: Vec<Edge>,
}

impl Model for EdgeList {
    ghost use Rattle.graph_model.specs.Graph.{Graph, IsGraph};

    ghost Value = { Graph };

    ghost view = { λ list. record { nodes = list.nodes; edges = list.edges.items } };

    ghost invariant = { λ list. IsGraph (record { nodes = list.nodes; edges = list.edges.items }) };
}

impl EdgeList {
    ghost use Rattle.graph_model.specs.Graph.{Graph, IsGraph};

    /// The graph of these nodes and edges.
    pub fn from_parts(nodes: u32, edges: Vec<Edge>) -> EdgeList
        requires { IsGraph (record { nodes = nodes; edges = edges.items }) }
        ensures { result ≡ record { nodes = nodes; edges = edges.items } }
    {
        EdgeList { nodes, edges }
    }

    /// The number of nodes, which are 0, 1 and so on.
    pub fn nodes(&self) -> u32
        ensures nodes { result ≡ self.now.nodes }
        ensures facts { IsGraph self.now }
    {
        self.nodes
    }

    /// The edges in file order.
    pub fn edges(&self) -> &[Edge]
        ensures edges { result.now ≡ self.now.edges }
        ensures facts { IsGraph self.now }
    {
        self.edges.as_slice()
    }

    /// The edges in file order, the list being given up.
    pub fn into_edges(self) -> Vec<Edge>
        ensures edges { result.items ≡ self.edges }
        ensures facts { IsGraph self }
    {
        self.edges
    }
}
