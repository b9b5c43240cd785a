//! The rules by which vertices are shared out among hosts.

/// How hosts come by their vertices. Each rule cuts the vertices, in order, into one block a host
/// (CuSP, IPDPS 2019, whose names are `ContiguousEB` and `Contiguous`).
#[derive(Clone, Copy, Debug, PartialEq, Eq)]
pub enum MasterRule {
    /// A block is of about as many out-edges as any other.
    Edges,
    /// A block is of as many vertices as any other, but for the last blocks.
    Nodes,
}
