//! The number of mirrors of a partition.
ghost use Rattle.std.specs.Prelude.{◌≡◌, ◌≤◌, ◌<◌, ◌^◌, length};
ghost use Rattle.graph_division.specs.Shares.{mirrors_here};
ghost use Rattle.graph_division.specs.Classes.{mirror_count};

use proxy_graph::LocalGraph;

/// The number of mirrors of all these graphs, which are at most 64.
pub fn mirrors(graphs: &[LocalGraph]) -> u64
    requires { length graphs.now ≤ 64 }
    ensures { result ≡ mirror_count graphs.now }
{
    let mut count = 0;
    for graph in graphs {
        count += u64::from(mirrors_of(graph));
    }
    count
}

/// The number of mirrors of one host.
fn mirrors_of(graph: &LocalGraph) -> u32
    ensures count { result ≡ length (mirrors_here graph.now) }
    ensures few { result < 2 ^ 32 }
{
    graph.proxies() - graph.masters()
}
