//! Graphs that are divided by each rule.
use crate::{build, build_list};
use cusp_rules::MasterRule;
use edge_owner::{OwnerRule, Rules};
use gr_reader::{GrReader, read_graph};
use graph_model::{EdgeList, Way};
use io_edge::PlainSource;
use proxy_graph::LocalGraph;
use std::alloc::{AllocError, Global};
use std::process::Abort;
use std::test::Fail;

/// Edges 0 to 0, 0 to 1 twice, 1 to 2 and 2 to 1.
const LOOP_LONGS: [u64; 7] = [1, 0, 3, 5, 3, 4, 5];

const LOOP_WORDS: [u32; 5] = [0, 1, 1, 2, 1];

/// A source of these numbers, of 8 bytes and then of 4.
fn file(alloc: Global, longs: &[u64], words: &[u32]) -> Result<PlainSource, AllocError> {
    let mut bytes = Vec::new(alloc);
    for long in longs {
        bytes.extend_from_slice(&long.to_le_bytes())?;
    }
    for word in words {
        bytes.extend_from_slice(&word.to_le_bytes())?;
    }
    Ok(PlainSource::new(bytes))
}

fn read(alloc: Global, longs: &[u64], words: &[u32]) -> Result<EdgeList, AllocError> {
    let mut source = file(alloc, longs, words)?;
    match read_graph(alloc, &mut source) {
        Ok(list) => Ok(list),
        Err(_) => Err(AllocError),
    }
}

/// The graphs of a file.
fn built(
    rt: &impl Abort,
    alloc: Global,
    longs: &[u64],
    words: &[u32],
    rules: Rules,
    hosts: u16,
) -> Result<Vec<LocalGraph>, AllocError> {
    assert!(rt; 1 <= hosts && hosts <= 64);
    let mut source = file(alloc, longs, words)?;
    let mut reader = GrReader::new(alloc)?;
    match reader.read_head(&mut source) {
        Ok(_) => {}
        Err(_) => return Err(AllocError),
    }
    match build(alloc, &mut reader, &mut source, rules, hosts) {
        Ok(graphs) => Ok(graphs),
        Err(_) => Err(AllocError),
    }
}

/// The vertices of the mirrors.
fn mirrors(alloc: Global, graph: &LocalGraph) -> Result<Vec<u32>, AllocError> {
    let mut vertices = Vec::new(alloc);
    for lid in graph.masters()..graph.proxies() {
        vertices.push(graph.global(lid))?;
    }
    Ok(vertices)
}

/// Each host has as many edges as it should, and these mirrors.
fn expect_hosts(
    rt: &impl Abort,
    alloc: Global,
    graphs: &[LocalGraph],
    hosts: &[(u32, &[u32])],
) -> Result<(), AllocError> {
    assert_eq!(rt; graphs.len(), hosts.len());
    for (graph, host) in graphs.iter().zip(hosts) {
        assert_eq!(rt; graph.edges(), host.0);
        let mirrors = mirrors(alloc, graph)?;
        assert_eq!(rt; mirrors.as_slice(), host.1);
    }
    Ok(())
}

/// The heads of the arcs out of each proxy.
fn heads(alloc: Global, graph: &LocalGraph) -> Result<Vec<Vec<(u32, u32)>>, AllocError> {
    let mut heads = Vec::new(alloc);
    for tail in 0..graph.proxies() {
        heads.push(graph.arcs(Way::Outward).heads_of(tail).collect(alloc)?)?;
    }
    Ok(heads)
}

/// The graphs are alike, each with the one in its place.
fn expect_same(
    rt: &impl Abort,
    alloc: Global,
    graphs: &[LocalGraph],
    wanted: &[LocalGraph],
) -> Result<(), AllocError> {
    assert_eq!(rt; graphs.len(), wanted.len());
    for (graph, want) in graphs.iter().zip(wanted) {
        assert_eq!(rt; graph.host(), want.host());
        assert_eq!(rt; graph.masters(), want.masters());
        assert_eq!(rt; mirrors(alloc, graph)?, mirrors(alloc, want)?);
        assert_eq!(rt; graph.edges(), want.edges());
        assert_eq!(rt; heads(alloc, graph)?, heads(alloc, want)?);
    }
    Ok(())
}

#[test]
fn each_owner_rule_hands_out_loops_and_repeated_edges(rt: HostRuntime) -> Result<(), Fail> {
    let alloc = rt.alloc();
    let list = read(alloc, &LOOP_LONGS, &LOOP_WORDS)?;
    let all: [(OwnerRule, [(u32, &[u32]); 4]); 4] = [
        (
            OwnerRule::Source,
            [(3, &[1]), (1, &[2]), (1, &[1]), (0, &[])],
        ),
        (
            OwnerRule::Dest,
            [(1, &[]), (3, &[0, 2]), (1, &[1]), (0, &[])],
        ),
        (
            OwnerRule::Hybrid(2),
            [(1, &[]), (3, &[0, 2]), (1, &[1]), (0, &[])],
        ),
        (
            OwnerRule::Cartesian,
            [(2, &[1, 2]), (2, &[0]), (0, &[]), (1, &[1, 2])],
        ),
    ];
    for (owner, hosts) in all {
        let rules = Rules {
            masters: MasterRule::Nodes,
            owner,
        };
        let graphs = build_list(alloc, &list, rules, 4)?;
        expect_hosts(&rt, alloc, &graphs, &hosts)?;
    }
    Ok(())
}

#[test]
fn one_host_has_all_edges_by_each_rule(rt: HostRuntime) -> Result<(), Fail> {
    let alloc = rt.alloc();
    let list = read(alloc, &LOOP_LONGS, &LOOP_WORDS)?;
    for owner in [
        OwnerRule::Source,
        OwnerRule::Dest,
        OwnerRule::Hybrid(2),
        OwnerRule::Cartesian,
    ] {
        let rules = Rules {
            masters: MasterRule::Edges,
            owner,
        };
        let graphs = build_list(alloc, &list, rules, 1)?;
        expect_hosts(&rt, alloc, &graphs, &[(5, &[])])?;
    }
    Ok(())
}

#[test]
fn a_file_is_divided_and_one_without_nodes_too(rt: HostRuntime) -> Result<(), Fail> {
    let alloc = rt.alloc();
    let all: [(OwnerRule, &[u64], &[u32], [(u32, &[u32]); 2]); 3] = [
        (
            OwnerRule::Source,
            &LOOP_LONGS,
            &LOOP_WORDS,
            [(3, &[1]), (2, &[])],
        ),
        (
            OwnerRule::Dest,
            &LOOP_LONGS,
            &LOOP_WORDS,
            [(1, &[]), (4, &[0])],
        ),
        (OwnerRule::Source, &[1, 0, 0, 0], &[], [(0, &[]), (0, &[])]),
    ];
    for (owner, longs, words, hosts) in all {
        let rules = Rules {
            masters: MasterRule::Edges,
            owner,
        };
        let graphs = built(&rt, alloc, longs, words, rules, 2)?;
        expect_hosts(&rt, alloc, &graphs, &hosts)?;
    }
    Ok(())
}

#[test]
fn a_file_is_divided_as_its_list_is(rt: HostRuntime) -> Result<(), Fail> {
    let alloc = rt.alloc();
    let list = read(alloc, &LOOP_LONGS, &LOOP_WORDS)?;
    let rules = Rules {
        masters: MasterRule::Nodes,
        owner: OwnerRule::Source,
    };
    for hosts in 1..4 {
        let graphs = built(&rt, alloc, &LOOP_LONGS, &LOOP_WORDS, rules, hosts)?;
        let wanted = build_list(alloc, &list, rules, hosts)?;
        expect_same(&rt, alloc, &graphs, &wanted)?;
    }
    Ok(())
}
