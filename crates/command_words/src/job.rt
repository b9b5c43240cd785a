//! What words ask for.
use edge_owner::Rules;
use graph_model::Way;

/// How a vertex program is to be run.
#[derive(Clone, Copy, Debug, PartialEq, Eq)]
pub struct RunWords {
    /// The number of hosts, from 1 to 64.
    pub hosts: u16,
    /// How the graph is shared out among the hosts.
    pub rules: Rules,
    /// How edges are followed.
    pub way: Way,
    /// The most rounds that the run may have, at least 1. Where there is none, it is one more than the
    /// graph has vertices.
    pub rounds: Option<u32>,
    /// The number that chooses the order of events within rounds.
    pub order: u64,
    /// Whether a report follows the answers.
    pub report: bool,
    /// Whether each packet is told.
    pub trace: bool,
}

/// A job, with all that words say of it.
#[derive(Clone, Copy, Debug, PartialEq, Eq)]
pub enum Job {
    /// The least number of arcs from a root to each vertex.
    Bfs {
        root: u32,
        run: RunWords,
    },
    /// The least cost from a root to each vertex.
    Sssp {
        root: u32,
        run: RunWords,
    },
    /// The components of the graph.
    Cc {
        run: RunWords,
    },
    /// The members of the core in which each vertex keeps k arcs.
    Kcore {
        k: u32,
        run: RunWords,
    },
    /// The masters of the vertices and the owners of the edges.
    Owners {
        hosts: u16,
        rules: Rules,
    },
    /// The proxies of each host, and the lists that hosts exchange.
    Proxies {
        hosts: u16,
        rules: Rules,
        way: Way,
    },
    /// A made graph's file, of `size` vertices from 1 to 1,000,000.
    Make {
        size: u32,
        number: u64,
    },
    /// All four programs over a made graph.
    Selfrun {
        size: u32,
        number: u64,
        hosts: u16,
        rules: Rules,
        order: u64,
    },
}
