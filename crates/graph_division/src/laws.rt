//! Laws of divided graphs. Each function does nothing: its contract is the law.
ghost use Rattle.graph_division.specs.Laws.{FileOrderStays, GraphsHaveArcs, ListsRise, WrittenIsReduced};
ghost use Rattle.graph_division.specs.PartitionLaws.{PartitionsDivide, HostsSeeThemselves, MirrorsAreOfNoWay};

/// Every graph has arcs on which programs may run, whichever way they are followed.
pub fn graphs_have_arcs()
    ensures { GraphsHaveArcs }
{}

/// The ids of the lists of two hosts rise and are vertices.
pub fn lists_rise()
    ensures { ListsRise }
{}

/// A mirror that is listed for broadcasts and is written is listed for reduces too. So a master
/// spreads to such a mirror only after the mirror's host has computed.
pub fn written_is_reduced()
    ensures { WrittenIsReduced }
{}

/// A partition's graph is divided among its hosts, whichever way its edges are followed.
pub fn partitions_divide()
    ensures { PartitionsDivide }
{}

/// What a host's share shows of this host is what the whole division has there: which vertices are read
/// and written, which have a mirror, and the lists along which the host sends and is sent values.
pub fn hosts_see_themselves()
    ensures { HostsSeeThemselves }
{}

/// Whether a vertex has a mirror on a host does not depend on how edges are followed.
pub fn mirrors_are_of_no_way()
    ensures { MirrorsAreOfNoWay }
{}

/// Edges between nodes whose sources do not fall stay as they are in file order.
pub fn file_order_stays()
    ensures { FileOrderStays }
{}
