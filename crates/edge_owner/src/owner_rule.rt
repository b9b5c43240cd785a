//! The rules by which edges are shared out among hosts.

/// Which host owns an edge, told by the masters of its two ends (CuSP, IPDPS 2019).
#[derive(Clone, Copy, Debug, PartialEq, Eq)]
pub enum OwnerRule {
    /// The master of the source.
    Source,
    /// The master of the destination.
    Dest,
    /// The master of the destination where the source has more out-edges than this threshold, and
    /// else the master of the source.
    Hybrid(u32),
    /// Hosts stand in a grid: the host in the row of the source's master and in the column of the
    /// destination's master.
    Cartesian,
}
