//! Laws of owners. Each function does nothing: its contract is the law.
ghost use Rattle.edge_owner.specs.Laws.{OwnersAreHosts, OwnersCross, BothWaysIsMaster};

/// By each rule the owner of an edge is a host.
pub fn owners_are_hosts()
    ensures { OwnersAreHosts }
{}

/// By the grid an edge's owner is in the row of the source's master and in the column of the
/// destination's.
pub fn owners_cross()
    ensures { OwnersCross }
{}

/// By the grid a host that owns an edge out of a vertex and an edge into it is the vertex's master. So
/// no mirror has both.
pub fn both_ways_is_master()
    ensures { BothWaysIsMaster }
{}
