//! The in-arcs of one proxy where they are not laid.
ghost use Rattle.std.specs.Prelude.{◌≡◌, ℕ, ◌<◌, List, [], ◌∷◌, ◌++◌, length, MatchOption};
ghost use Rattle.std.specs.Iterator.{YieldsFirst, item_count};
ghost use Rattle.graph_division.specs.Shares.{IsShare, proxies_here};
ghost use Rattle.proxy_graph.specs.Heads.{heads_from};
ghost use Rattle.proxy_graph.specs.Search.{weights_to, arcs_to, in_arcs_since};
ghost use Rattle.graph_model.specs.declared.edge.Way.TheVariants.{Inward};

use crate::local_graph::LocalGraph;
use crate::run::Run;
use std::marker::Model;

/// The in-arcs of a proxy that are still to come, found among the out-arcs of all proxies in file order: for
/// each the local number of the proxy that it comes from, and its weight.
#[derive(Drop)]
pub(crate) struct Search<'a> {
    graph: &'a LocalGraph,
    /// The proxy whose in-arcs these are.
    head: u32,
    /// A proxy, and those of its out-arcs that are still to be looked at.
    source: u32,
    run: Run<'a>,
    /// The vertex from which on no out-arcs were looked at.
    next: u32,
}

impl<'a> Model for Search<'a> {
    ghost Value = { List (ℕ × ℕ) };

    ghost view = { λ search. arcs_to search.head search.source search.run ++ in_arcs_since search.graph.now search.head search.next };

    ghost invariant = { λ search. search.head < length (proxies_here search.graph.now) };
}

impl<'a> Search<'a> {
    /// The in-arcs of a proxy of this graph.
    pub(crate) fn new(graph: &'a LocalGraph, head: u32) -> Search<'a>
        requires { head < length (proxies_here graph.now) }
        ensures { result ≡ heads_from Inward graph.now head }
    {
        told(graph);
        Search {
            graph,
            head,
            source: 0,
            run: graph.no_run(),
            next: 0,
        }
    }
}

/// Does nothing: it tells a proof what holds of every local graph.
fn told(graph: &LocalGraph)
    ensures { IsShare graph.now }
{
    graph.nodes();
}

/// The weight of the next arc of a run that leads to `head`; those before it, and it, are passed.
fn next_to(run: &mut Run<'_>, head: u32) -> Option<u32>
    ensures { MatchOption result ((weights_to head run.old ≡ []) × (run.new ≡ []))
        (λ weight. weights_to head run.old ≡ weight ∷ weights_to head run.new) }
{
    while let Some((other, weight)) = run.next() {
        if other == head {
            return Some(weight);
        }
    }
    None
}

impl<'a> Iterator for Search<'a> {
    type Item = (u32, u32);

    ghost next_gives = { YieldsFirst (λ arcs. arcs) };

    ghost remaining = { item_count (λ arcs. arcs) };

    fn next(&mut self) -> Option<(u32, u32)> {
        if let Some(weight) = next_to(&mut self.run, self.head) {
            return Some((self.source, weight));
        }
        while self.next < self.graph.nodes() {
            let vertex = self.next;
            self.next += 1;
            if let Some((source, run)) = self.graph.run_from(vertex) {
                self.source = source;
                self.run = run;
                if let Some(weight) = next_to(&mut self.run, self.head) {
                    return Some((source, weight));
                }
            }
        }
        None
    }
}
