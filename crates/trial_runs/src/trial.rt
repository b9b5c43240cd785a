//! What the four programs tell of a graph.
use graph_maker::Summary;

/// What the four programs tell of a graph.
#[derive(Clone, Copy, Debug, PartialEq, Eq)]
pub struct Trial {
    /// The number of vertices.
    pub nodes: u32,
    /// The number of edges.
    pub edges: u32,
    /// How many arcs lead from vertex 0 to the others.
    pub distances: Summary,
    /// What the cheapest walks from vertex 0 to the others cost.
    pub costs: Summary,
    /// How many vertices have their own number for their label: one in each component.
    pub labels: u64,
    /// How many vertices are in the core.
    pub members: u64,
}
