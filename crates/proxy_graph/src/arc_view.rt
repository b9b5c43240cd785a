//! The arcs of a local graph, followed in a way.
ghost use Rattle.std.specs.Prelude.{◌≡◌, ◌<◌, ◌++◌, length, IfSome};
ghost use Rattle.graph_model.specs.declared.edge.Way.TheVariants.{Inward};
ghost use Rattle.graph_division.specs.Shares.{proxies_here};
ghost use Rattle.proxy_graph.specs.Heads.{Lent, heads_from};

use crate::heads::Heads;
use crate::local_graph::LocalGraph;
use crate::run::Run;
use crate::search::Search;
use graph_model::Way;
use std::marker::Model;

/// The arcs of a local graph, followed in a way, by tail. It lends them and copies nothing.
#[derive(Drop)]
pub struct ArcView<'a> {
    graph: &'a LocalGraph,
    way: Way,
}

impl<'a> Model for ArcView<'a> {
    ghost Value = { Lent };

    ghost view = { λ arcs. record { way = arcs.way; share = arcs.graph.now } };
}

impl<'a> ArcView<'a> {
    /// The arcs of this graph, followed in this way.
    pub(crate) fn new(graph: &'a LocalGraph, way: Way) -> ArcView<'a>
        ensures { result ≡ record { way = way; share = graph.now } }
    {
        ArcView { graph, way }
    }

    /// The arcs out of a proxy, whose local number is below the number of proxies: out-edges in file
    /// order and then in-edges in file order, as far as the way takes them.
    pub fn heads_of(&self, tail: u32) -> Heads<'a>
        requires { tail < length (proxies_here self.now.share) }
        ensures { result ≡ heads_from self.now.way self.now.share tail }
    {
        let graph = self.graph;
        match self.way {
            Way::Outward => Heads::of_runs(graph.out_run(tail), graph.no_run()),
            Way::Inward => with_in_arcs(graph.no_run(), graph, tail),
            Way::Both => with_in_arcs(graph.out_run(tail), graph, tail),
        }
    }

    /// The same arcs in two parts, each of which lies side by side: those of out-edges and those of
    /// in-edges, where the way takes both. Where it takes one, the second part is empty. There is None
    /// where arcs that the way takes are not laid.
    #[inline(always)]
    pub fn runs_of(&self, tail: u32) -> Option<(Run<'a>, Run<'a>)>
        requires { tail < length (proxies_here self.now.share) }
        ensures { IfSome result (λ runs. runs.0 ++ runs.1 ≡ heads_from self.now.way self.now.share tail) }
    {
        let graph = self.graph;
        match self.way {
            Way::Outward => Some((graph.out_run(tail), graph.no_run())),
            Way::Inward => Some((graph.in_run(tail)?, graph.no_run())),
            Way::Both => Some((graph.out_run(tail), graph.in_run(tail)?)),
        }
    }
}

/// The arcs of a run, and then the in-arcs of a proxy.
fn with_in_arcs<'a>(run: Run<'a>, graph: &'a LocalGraph, tail: u32) -> Heads<'a>
    requires { tail < length (proxies_here graph.now) }
    ensures { result ≡ run.entry ++ heads_from Inward graph.now tail }
{
    match graph.in_run(tail) {
        Some(in_run) => Heads::of_runs(run, in_run),
        None => Heads::of_search(run, graph.no_run(), Search::new(graph, tail)),
    }
}
