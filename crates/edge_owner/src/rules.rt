//! The two rules that make a partition.
use crate::owner_rule::OwnerRule;
use cusp_rules::MasterRule;

/// A partition's two rules (CuSP, IPDPS 2019).
#[derive(Clone, Copy, Debug, PartialEq, Eq)]
pub struct Rules {
    /// Which host is the master of a vertex.
    pub masters: MasterRule,
    /// Which host owns an edge.
    pub owner: OwnerRule,
}
