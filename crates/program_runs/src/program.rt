//! The programs that a user may name.

/// A program, with what it starts from or asks for.
#[derive(Clone, Copy, Debug, PartialEq, Eq)]
pub enum Program {
    /// The least number of arcs from a root to each vertex.
    Bfs {
        /// The vertex where walks start.
        root: u32,
    },
    /// The least cost from a root to each vertex.
    Sssp {
        /// The vertex where walks start.
        root: u32,
    },
    /// The least vertex from which a walk leads to each vertex.
    Cc,
    /// The members of the largest set of vertices in which each has at least `k` arcs from the set.
    Kcore {
        /// How many arcs from the set each member has at least.
        k: u32,
    },
}
