//! Laws of walks and of the least that they give. Each function does nothing: its contract is the law.
ghost use Rattle.std.specs.Prelude.{◌≡◌};
ghost use Rattle.graph_model.specs.declared.edge_list.TheConstants.{MAX_NODES, MAX_EDGES};
ghost use Rattle.graph_model.specs.Graph.{most_nodes, most_edges};
ghost use Rattle.graph_model.specs.Laws.{WalksJoin, WalksCut, WalksEndByArc, LevelsStep, LevelsGrow, LevelsEnd, LeastIsUnique, WalksShorten, LeastIsWithinNodes, ArcsAreASet, LeastOrderIsFree, WalkCountOrderIsFree, WalkCountIsUnique};

/// The limits that code compares with are those of every graph.
pub fn limits_hold()
    ensures nodes { MAX_NODES ≡ most_nodes }
    ensures edges { MAX_EDGES ≡ most_edges }
{}

/// Two walks join where the one ends and the other starts.
pub fn walks_join()
    ensures { WalksJoin }
{}

/// A walk may be cut after each of its arcs, into a walk up to there and a walk from there.
pub fn walks_cut()
    ensures { WalksCut }
{}

/// A walk with an arc in it is a walk and a last arc.
pub fn walks_end_by_arc()
    ensures { WalksEndByArc }
{}

/// The walks of at most one arc more are those within the limit, and those with a last arc after them.
pub fn levels_step()
    ensures { LevelsStep }
{}

/// The walks within a limit are among those within a larger limit.
pub fn levels_grow()
    ensures { LevelsGrow }
{}

/// The walks within a limit are among all walks.
pub fn levels_end()
    ensures { LevelsEnd }
{}

/// At most one answer is the least.
pub fn least_is_unique()
    ensures { LeastIsUnique }
{}

/// What a walk of a graph gives, a walk of fewer arcs than nodes gives too, or less.
pub fn walks_shorten()
    ensures { WalksShorten }
{}

/// The least over all walks of a graph is the least over those of fewer arcs than nodes.
pub fn least_is_within_nodes()
    ensures { LeastIsWithinNodes }
{}

/// Which arcs there are makes the least, and neither their order nor how often they stand.
pub fn arcs_are_a_set()
    ensures { ArcsAreASet }
{}

/// The order of the arcs makes no difference to the least.
pub fn least_order_is_free()
    ensures { LeastOrderIsFree }
{}

/// The order of the arcs makes no difference to the number of rounds that walks take.
pub fn walk_count_order_is_free()
    ensures { WalkCountOrderIsFree }
{}

/// Walks take one number of rounds.
pub fn walk_count_is_unique()
    ensures { WalkCountIsUnique }
{}
