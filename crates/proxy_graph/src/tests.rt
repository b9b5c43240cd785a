//! Local graphs of small graphs, against values reckoned by hand.
ghost use Rattle.std.specs.Prelude.{◌≡◌, ◌<◌, ◌-◌, ◌≤◌, length, All, IfOk, IsTrue};
ghost use Rattle.cusp_rules.specs.Formulas.{IsStarts};
ghost use Rattle.graph_model.specs.Graph.{IsWithin, most_edges};
ghost use Rattle.graph_division.specs.Shares.{nodes_of};

use crate::LocalGraph;
use cusp_rules::{MasterRule, Masters};
use edge_columns::EdgeColumns;
use graph_model::{Edge, Way};
use std::alloc::{AllocError, Global};
use std::process::Abort;
use std::test::Fail;

/// Whether these may be the starts of a small graph.
fn are_starts(starts: &[u32]) -> bool
    ensures { IsTrue result → IsStarts starts.now }
{
    if starts.is_empty() || starts.len() > 100 || starts[0] != 0 {
        return false;
    }
    starts[starts.len() - 1] <= 100 && starts.is_sorted()
}

/// Whether the ends of these edges are nodes.
fn are_within(nodes: u32, edges: &[Edge]) -> bool
    ensures { IsTrue result → All (IsWithin nodes) edges.now }
{
    edges
        .iter()
        .all(|edge| edge.src < nodes && edge.dst < nodes)
}

fn edge(src: u32, dst: u32, weight: u32) -> Edge {
    Edge { src, dst, weight }
}

/// The local graph of these edges on a host of two, where masters are cut by these starts and arcs are laid
/// for this way.
fn assembled(
    rt: &impl Abort,
    alloc: Global,
    laid: Way,
    host: u16,
    starts: &[u32],
    edges: &[Edge],
) -> Result<LocalGraph, Fail> {
    assert!(rt; host < 2 && starts.len() < 100 && edges.len() < 100);
    assert!(rt; are_starts(starts));
    let nodes = (starts.len() - 1) as u32;
    assert!(rt; are_within(nodes, edges));
    let masters = Masters::new(alloc, MasterRule::Edges, 2, starts)?;
    Ok(LocalGraph::assemble_for(alloc, laid, host, &masters, nodes, edges)?)
}

/// The local graph of three edges, from 0 to 1, from 1 to 0 and from 1 to itself, of weights 7, 8 and 9, on the
/// one host there is.
fn alone(rt: &impl Abort, alloc: Global, laid: Way) -> Result<LocalGraph, Fail> {
    let starts: &[u32] = &[0, 1, 3];
    assert!(rt; are_starts(starts));
    let masters = Masters::new(alloc, MasterRule::Nodes, 1, starts)?;
    let columns = EdgeColumns::from_parts(
        Vec::from_slice(alloc, starts)?,
        vec![in alloc; 1, 0, 1]?,
        vec![in alloc; 7, 8, 9]?,
    );
    Ok(LocalGraph::of_columns(alloc, laid, &masters, columns)?)
}

/// The heads of the arcs out of a proxy of this graph.
fn heads(
    rt: &impl Abort,
    alloc: Global,
    graph: &LocalGraph,
    way: Way,
    tail: u32,
) -> Result<Vec<(u32, u32)>, AllocError> {
    assert!(rt; tail < graph.proxies());
    graph.arcs(way).heads_of(tail).collect(alloc)
}

/// Of each proxy: its vertex, the host of its master, whether it has out-edges, and in-edges.
fn proxies(alloc: Global, graph: &LocalGraph) -> Result<Vec<(u32, u16, bool, bool)>, AllocError> {
    let mut told = Vec::new(alloc);
    for lid in 0..graph.proxies() {
        let out = graph.has_out(lid) && graph.readable(Way::Outward, lid);
        let into = graph.has_in(lid) && graph.writable(Way::Outward, lid);
        told.push((graph.global(lid), graph.master_of(lid), out, into))?;
    }
    Ok(told)
}

#[test]
fn proxies_are_told(rt: HostRuntime) -> Result<(), Fail> {
    let starts: &[u32] = &[0, 2, 3, 4, 4];
    let first: &[Edge] = &[edge(0, 1, 7), edge(0, 2, 8)];
    let second: &[Edge] = &[edge(1, 3, 9), edge(2, 3, 6)];
    for (host, edges, masters, want) in [
        (
            0,
            first,
            1,
            [
                (0, 0, true, false),
                (1, 1, false, true),
                (2, 1, false, true),
            ],
        ),
        (
            1,
            second,
            3,
            [
                (1, 1, true, false),
                (2, 1, true, false),
                (3, 1, false, true),
            ],
        ),
    ] {
        for laid in [Way::Outward, Way::Inward] {
            let graph = assembled(&rt, rt.alloc(), laid, host, starts, edges)?;
            assert_eq!(rt; (graph.host(), graph.hosts(), graph.nodes()), (host, 2, 4));
            assert_eq!(rt; (graph.edges(), graph.masters()), (2, masters));
            assert_eq!(rt; graph.local(0).is_none(), host == 1);
            assert_eq!(rt; proxies(rt.alloc(), &graph)?.as_slice(), want.as_slice());
        }
    }
    Ok(())
}

#[test]
fn arcs_are_lent_in_file_order(rt: HostRuntime) -> Result<(), Fail> {
    let starts: &[u32] = &[0, 2, 3, 4, 4];
    let first: &[Edge] = &[edge(0, 1, 7), edge(0, 2, 8)];
    let unsorted: &[Edge] = &[edge(2, 3, 5), edge(1, 3, 4), edge(2, 3, 5)];
    let looped: &[Edge] = &[edge(1, 1, 3), edge(0, 1, 2)];
    for (host, starts, edges, way, tail, want) in [
        (
            0,
            starts,
            first,
            Way::Outward,
            0,
            [(1, 7), (2, 8)].as_slice(),
        ),
        (0, starts, first, Way::Inward, 1, [(0, 7)].as_slice()),
        // Not by source, and one edge twice.
        (
            1,
            starts,
            unsorted,
            Way::Both,
            2,
            [(0, 4), (1, 5), (1, 5)].as_slice(),
        ),
        // A loop at a mirror.
        (
            0,
            [0, 1, 2].as_slice(),
            looped,
            Way::Both,
            1,
            [(1, 3), (0, 2), (1, 3)].as_slice(),
        ),
    ] {
        // Arcs that are not laid are found, and come in the same order.
        for laid in [Way::Both, Way::Outward] {
            let graph = assembled(&rt, rt.alloc(), laid, host, starts, edges)?;
            assert_eq!(rt; heads(&rt, rt.alloc(), &graph, way, tail)?.as_slice(), want);
        }
    }
    let graph = assembled(&rt, rt.alloc(), Way::Both, 1, &[0], &[])?;
    assert_eq!(rt; graph.proxies(), 0);
    Ok(())
}

#[test]
fn columns_give_the_graph_of_one_host(rt: HostRuntime) -> Result<(), Fail> {
    for laid in [Way::Outward, Way::Inward, Way::Both] {
        let graph = alone(&rt, rt.alloc(), laid)?;
        assert_eq!(rt; (graph.host(), graph.hosts(), graph.nodes()), (0, 1, 2));
        assert_eq!(rt;
            (graph.edges(), graph.masters(), graph.local(1)),
            (3, 2, Some(1))
        );
        let want = [(0, 0, true, true), (1, 0, true, true)];
        assert_eq!(rt; proxies(rt.alloc(), &graph)?.as_slice(), want.as_slice());
        for (way, tail, want) in [
            (Way::Outward, 0, [(1, 7)].as_slice()),
            (Way::Outward, 1, [(0, 8), (1, 9)].as_slice()),
            (Way::Inward, 1, [(0, 7), (1, 9)].as_slice()),
            (Way::Both, 0, [(1, 7), (1, 8)].as_slice()),
        ] {
            assert_eq!(rt; heads(&rt, rt.alloc(), &graph, way, tail)?.as_slice(), want);
        }
    }
    Ok(())
}
