//! The cluster of a run that came to its end.
use kcore_program::Kcore;
use round_driver::Cluster;
use vertex_programs::{Bfs, Components, Sssp};

/// The cluster of a run that came to its end, after the last round.
#[derive(Drop)]
pub enum LastRun {
    /// Of breadth-first search.
    Bfs(Cluster<Bfs>),
    /// Of shortest paths.
    Sssp(Cluster<Sssp>),
    /// Of components.
    Cc(Cluster<Components>),
    /// Of k-core.
    Kcore(Cluster<Kcore>),
}
