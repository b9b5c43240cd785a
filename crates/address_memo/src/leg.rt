//! The two ways of a value between a mirror and its master.
ghost use Rattle.std.specs.Prelude.{◌≡◌, ◌<◌, length};
ghost use Rattle.graph_division.specs.Shares.{proxies_here};
ghost use Rattle.proxy_graph.specs.Heads.{vertex_at};
ghost use Rattle.address_memo.specs.Legs.{is_taken};

use graph_model::Way;
use proxy_graph::LocalGraph;

/// Which way a value goes.
#[derive(Clone, Copy)]
pub(crate) enum Leg {
    /// From mirrors that are written to their masters.
    Reduce,
    /// From masters to their mirrors that are read.
    Spread,
}

/// Whether a proxy takes part in a leg.
pub(crate) fn takes_part(graph: &LocalGraph, way: Way, leg: Leg, lid: u32) -> bool
    requires { lid < length (proxies_here graph.now) }
    ensures { result ≡ is_taken leg way graph.now (vertex_at graph.now lid) }
{
    match leg {
        Leg::Reduce => graph.writable(way, lid),
        Leg::Spread => graph.readable(way, lid),
    }
}
