//! Laws of what rules make of a graph. Each function does nothing: its contract is the law.
ghost use Rattle.share_plan.specs.Laws.{
  PlansTellOwners,
  EdgesHaveOwners,
  SharesArePartition,
  ArcsAreShared,
  SourceHasNoOut,
  DestHasNoIn,
  CartesianHasNoBoth,
};

/// A graph's plan tells the owner of each edge.
pub fn plans_tell_owners()
    ensures { PlansTellOwners }
{}

/// Every edge has an owner, which is a host.
pub fn edges_have_owners()
    ensures { EdgesHaveOwners }
{}

/// What the hosts hold by any rules is a partition, whatever the graph and the number of hosts.
pub fn shares_are_partition()
    ensures { SharesArePartition }
{}

/// The arcs of all hosts together are those of the graph, whichever way edges are followed: each is on one
/// host, once.
pub fn arcs_are_shared()
    ensures { ArcsAreShared }
{}

/// Where the master of the source owns an edge, no mirror has an out-edge.
pub fn source_has_no_out()
    ensures { SourceHasNoOut }
{}

/// Where the master of the destination owns an edge, no mirror has an in-edge.
pub fn dest_has_no_in()
    ensures { DestHasNoIn }
{}

/// Where edges go by the grid, no mirror has both an out-edge and an in-edge.
pub fn cartesian_has_no_both()
    ensures { CartesianHasNoBoth }
{}
