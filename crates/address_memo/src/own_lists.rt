//! A host's own lists: the mirrors that it shares with each peer.
ghost use Rattle.std.specs.Prelude.{◌≡◌, ℕ, ◌+◌, ◌<◌, ◌≤◌, length, map, IfOk};
ghost use Rattle.std.specs.List.{range_with_len};
ghost use Rattle.graph_division.specs.Shares.{masters_here, nodes_of, proxies_here};
ghost use Rattle.address_memo.specs.Memos.{proxies_of};
ghost use Rattle.address_memo.specs.Legs.{own_of};
ghost use Rattle.address_memo.specs.Runs.{IsStartOf};

use crate::leg::{Leg, takes_part};
use crate::proxy_list::ProxyList;
use graph_model::Way;
use proxy_graph::LocalGraph;
use std::alloc::{AllocError, Global};

/// Where the mirrors begin whose masters are on this host or one above it. Mirrors stand by their
/// masters' hosts.
fn mirrors_from(graph: &LocalGraph, peer: u16) -> u32
    ensures { IsStartOf graph.now peer result }
{
    let _ = graph.hosts();
    let mut low = graph.masters();
    let mut high = graph.proxies();
    while low < high {
        let middle = low + (high - low) / 2;
        if graph.master_of(middle) < peer {
            low = middle + 1;
        } else {
            high = middle;
        }
    }
    low
}

/// The mirrors on this host that take part in a leg and have their masters on a peer. Their list holds
/// no more memory than it needs.
pub(crate) fn own_list(
    alloc: Global,
    graph: &LocalGraph,
    way: Way,
    leg: Leg,
    peer: u16,
) -> Result<ProxyList, AllocError>
    requires { peer < graph.now.hosts }
    ensures list { IfOk result (λ list. list ≡ proxies_of graph.now (own_of leg way graph.now peer)) }
    ensures few { IfOk result (λ list. length list.globals ≤ nodes_of graph.now) }
{
    let _ = graph.hosts();
    let first = mirrors_from(graph, peer);
    let end = mirrors_from(graph, peer + 1);
    // All may take part; what is not needed is given back.
    let most = (end - first) as usize;
    let mut locals = Vec::with_capacity(alloc, most)?;
    let mut globals = Vec::with_capacity(alloc, most)?;
    for lid in first..end {
        if takes_part(graph, way, leg, lid) {
            locals.push(lid)?;
            globals.push(graph.global(lid))?;
        }
    }
    locals.shrink_to_fit();
    globals.shrink_to_fit();
    Ok(ProxyList::new(locals, globals))
}

/// The own lists of a leg, by peer.
pub(crate) fn own_lists(
    alloc: Global,
    graph: &LocalGraph,
    way: Way,
    leg: Leg,
) -> Result<Vec<ProxyList>, AllocError>
    ensures { IfOk result (λ lists. lists.items ≡ map (λ peer. proxies_of graph.now (own_of leg way graph.now peer)) (range_with_len 0 graph.now.hosts)) }
{
    let hosts = graph.hosts();
    let mut lists = Vec::with_capacity(alloc, hosts as usize)?;
    for peer in 0..hosts {
        lists.push(own_list(alloc, graph, way, leg, peer)?)?;
    }
    Ok(lists)
}
