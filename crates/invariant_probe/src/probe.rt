//! Which classes a partition is of.
ghost use Rattle.std.specs.Prelude.{◌≡◌, not, ◌&&◌};
ghost use Rattle.graph_division.specs.Shares.{mirrors_here};
ghost use Rattle.graph_division.specs.Classes.{has_out, has_in, has_both, no_mirror};
ghost use Rattle.invariant_probe.specs.Probe.{none_of};

use crate::lacks::Classes;
use proxy_graph::LocalGraph;

/// What the mirrors of all these graphs lack.
pub fn classes(graphs: &[LocalGraph]) -> Classes
    ensures no_out { result.no_out ≡ no_mirror has_out graphs.now }
    ensures no_in { result.no_in ≡ no_mirror has_in graphs.now }
    ensures no_both { result.no_both ≡ no_mirror has_both graphs.now }
{
    let mut all = Classes {
        no_out: true,
        no_in: true,
        no_both: true,
    };
    for graph in graphs {
        let here = classes_of(graph);
        all = Classes {
            no_out: all.no_out && here.no_out,
            no_in: all.no_in && here.no_in,
            no_both: all.no_both && here.no_both,
        };
    }
    all
}

/// What the mirrors of one host lack.
fn classes_of(graph: &LocalGraph) -> Classes
    ensures no_out { result.no_out ≡ none_of has_out graph.now (mirrors_here graph.now) }
    ensures no_in { result.no_in ≡ none_of has_in graph.now (mirrors_here graph.now) }
    ensures no_both { result.no_both ≡ none_of has_both graph.now (mirrors_here graph.now) }
{
    let mut all = Classes {
        no_out: true,
        no_in: true,
        no_both: true,
    };
    for lid in graph.masters()..graph.proxies() {
        all = with_mirror(all, graph.has_out(lid), graph.has_in(lid));
    }
    all
}

/// What mirrors lack, with one more that has an out-edge or an in-edge.
fn with_mirror(all: Classes, out: bool, into: bool) -> Classes
    ensures no_out { result.no_out ≡ (all.no_out && not out) }
    ensures no_in { result.no_in ≡ (all.no_in && not into) }
    ensures no_both { result.no_both ≡ (all.no_both && not (out && into)) }
{
    Classes {
        no_out: all.no_out && !out,
        no_in: all.no_in && !into,
        no_both: all.no_both && !(out && into),
    }
}
