//! A whole graph, in memory by column.
ghost use Rattle.std.specs.Prelude.{◌≡◌, map, IfOk};

use crate::sources::sources;
use std::alloc::{AllocError, Global};
use std::marker::Model;

/// A graph by column. The edges stand in file order: those of a node side by side, by rising node.
#[derive(Debug, Drop)]
pub struct EdgeColumns {
    /// For each node where its edges start, and behind the last where they end.
    starts: Vec<u32>,
    /// The destination of each edge.
    destinations: Vec<u32>,
    /// The weight of each edge.
    weights: Vec<u32>,
}

impl Model for EdgeColumns {
    ghost use Rattle.graph_model.specs.Graph.{Graph};
    ghost use Rattle.edge_columns.specs.Columns.{graph_of, AreColumns};

    ghost Value = { Graph };

    ghost view = { λ columns. graph_of columns.starts.items columns.destinations.items columns.weights.items };

    ghost invariant = { λ columns. AreColumns columns.starts.items columns.destinations.items columns.weights.items };
}

impl EdgeColumns {
    ghost use Rattle.graph_model.specs.Graph.{IsGraph};
    ghost use Rattle.edge_columns.specs.Starts.{starts_of};
    ghost use Rattle.edge_columns.specs.Columns.{graph_of, AreColumns};

    /// The graph of these columns: an entry for each node and one for the end, which rise from 0 to the number of
    /// edges, and a destination and a weight for each edge.
    pub fn from_parts(starts: Vec<u32>, destinations: Vec<u32>, weights: Vec<u32>) -> EdgeColumns
        requires { AreColumns starts.items destinations.items weights.items }
        ensures { result ≡ graph_of starts.items destinations.items weights.items }
    {
        EdgeColumns {
            starts,
            destinations,
            weights,
        }
    }

    /// The number of nodes, which are 0, 1 and so on.
    pub fn nodes(&self) -> u32
        ensures nodes { result ≡ self.now.nodes }
        ensures facts { IsGraph self.now }
    {
        self.starts.len() as u32 - 1
    }

    /// For each node where its edges start, and behind the last where they end.
    pub fn starts(&self) -> &[u32]
        ensures starts { result.now ≡ starts_of self.now }
        ensures facts { IsGraph self.now }
    {
        self.starts.as_slice()
    }

    /// The destination of each edge.
    pub fn destinations(&self) -> &[u32]
        ensures { result.now ≡ map (λ edge. edge.dst) self.now.edges }
    {
        self.destinations.as_slice()
    }

    /// The weight of each edge.
    pub fn weights(&self) -> &[u32]
        ensures { result.now ≡ map (λ edge. edge.weight) self.now.edges }
    {
        self.weights.as_slice()
    }

    /// The source of each edge. Takes memory for one number for each edge.
    pub fn sources(&self, alloc: Global) -> Result<Vec<u32>, AllocError>
        ensures { IfOk result (λ sources. sources.items ≡ map (λ edge. edge.src) self.now.edges) }
    {
        sources(alloc, &self.starts, self.destinations.len())
    }

    /// The columns, the graph being given up: the starts, the destinations and the weights.
    pub fn into_parts(self) -> (Vec<u32>, Vec<u32>, Vec<u32>)
        ensures starts { result.0.items ≡ starts_of self }
        ensures destinations { result.1.items ≡ map (λ edge. edge.dst) self.edges }
        ensures weights { result.2.items ≡ map (λ edge. edge.weight) self.edges }
        ensures facts { IsGraph self }
    {
        (self.starts, self.destinations, self.weights)
    }
}
