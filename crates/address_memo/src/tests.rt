//! Payloads between two hosts of a small graph.
ghost use Rattle.std.specs.Prelude.{◌≡◌, ◌<◌, ◌≤◌, length, IfOk, IsTrue, All};
ghost use Rattle.graph_model.specs.Graph.{IsWithin};
ghost use Rattle.cusp_rules.specs.Formulas.{IsStarts};

use crate::{ListKind, Memo, MemoFault, memo_payload, payload_of, read_memo};
use cusp_rules::{MasterRule, Masters};
use graph_model::{Edge, Way};
use proxy_graph::LocalGraph;
use std::alloc::{AllocError, Global};
use std::test::Fail;

// Whether these may be the starts of a small graph.
fn are_starts(starts: &[u32]) -> bool
    ensures { IsTrue result → IsStarts starts.now }
{
    if starts.is_empty() || starts.len() > 100 || starts[0] != 0 {
        return false;
    }
    starts[starts.len() - 1] <= 100 && starts.is_sorted()
}

// Vertex 0 has its master on host 0; 1, 2 and 3 have theirs on host 1.
fn masters(alloc: Global) -> Result<Masters, AllocError>
    ensures hosts { IfOk result (λ made. made.hosts ≡ 2) }
    ensures nodes { IfOk result (λ made. length made.masters ≡ 4) }
{
    let starts = [0, 2, 3, 4, 4];
    if !are_starts(&starts) {
        return Err(AllocError);
    }
    Masters::new(alloc, MasterRule::Edges, 2, &starts)
}

// Two edges of weight 1.
fn edges(first: (u32, u32), second: (u32, u32)) -> [Edge; 2]
    requires first { (first.0 < 4) × (first.1 < 4) }
    requires second { (second.0 < 4) × (second.1 < 4) }
    ensures within { All (IsWithin 4) result }
    ensures count { length result ≡ 2 }
{
    [
        Edge {
            src: first.0,
            dst: first.1,
            weight: 1,
        },
        Edge {
            src: second.0,
            dst: second.1,
            weight: 1,
        },
    ]
}

// The graph of a host: 0 to 1 and 0 to 2 on host 0, 1 to 3 and 2 to 3 on host 1.
fn graph_of(alloc: Global, host: u16) -> Result<LocalGraph, AllocError>
    requires { host < 2 }
    ensures { IfOk result (λ graph. graph.hosts ≡ 2) }
{
    let masters = masters(alloc)?;
    let edges = if host == 0 {
        edges((0, 1), (0, 2))
    } else {
        edges((1, 3), (2, 3))
    };
    LocalGraph::assemble(alloc, host, &masters, 4, &edges)
}

// The fault of a payload that comes to a host.
fn fault_of(alloc: Global, graph: &LocalGraph, bytes: &[u8]) -> Option<MemoFault> {
    match read_memo(alloc, graph, bytes) {
        Ok(_) => None,
        Err(fault) => Some(fault),
    }
}

#[test]
fn a_payload_is_read_where_it_goes(rt: HostRuntime) -> Result<(), Fail> {
    let sender = graph_of(rt.alloc(), 0)?;
    let receiver = graph_of(rt.alloc(), 1)?;
    let bytes = memo_payload(rt.alloc(), &sender, Way::Outward, 1)?;
    let want: [u8; 16] = [2, 0, 0, 0, 0, 0, 0, 0, 1, 0, 0, 0, 2, 0, 0, 0];
    assert_eq!(rt; bytes.as_slice(), want.as_slice());
    let same = payload_of(rt.alloc(), &[1, 2], &[])?;
    assert_eq!(rt; same.as_slice(), want.as_slice());
    let own = Memo::open(rt.alloc(), &sender, Way::Outward)?;
    assert_eq!(rt; own.list(ListKind::ReduceTo, 1).locals(), [1, 2].as_slice());
    assert!(rt; own.list(ListKind::SpreadFrom, 1).globals().is_empty());

    let mut memo = Memo::open(rt.alloc(), &receiver, Way::Outward)?;
    memo.accept(0, read_memo(rt.alloc(), &receiver, &bytes)?);
    let told = memo.list(ListKind::ReduceFrom, 0);
    assert_eq!(rt; told.locals(), [0, 1].as_slice());
    assert_eq!(rt; told.globals(), [1, 2].as_slice());
    assert!(rt; memo.list(ListKind::SpreadTo, 0).globals().is_empty());
    crate::memos_fit();
    Ok(())
}

#[test]
fn lists_of_both_legs_are_the_same_both_ways(rt: HostRuntime) -> Result<(), Fail> {
    let sender = graph_of(rt.alloc(), 0)?;
    let receiver = graph_of(rt.alloc(), 1)?;
    let own = Memo::open(rt.alloc(), &sender, Way::Both)?;
    for kind in [ListKind::ReduceTo, ListKind::SpreadFrom] {
        let mirrors = own.list(kind, 1);
        assert_eq!(rt; mirrors.locals(), [1, 2].as_slice(), "of {kind:?}");
        assert_eq!(rt; mirrors.globals(), [1, 2].as_slice(), "of {kind:?}");
    }

    let bytes = memo_payload(rt.alloc(), &sender, Way::Both, 1)?;
    let mut memo = Memo::open(rt.alloc(), &receiver, Way::Both)?;
    memo.accept(0, read_memo(rt.alloc(), &receiver, &bytes)?);
    for kind in [ListKind::ReduceFrom, ListKind::SpreadTo] {
        let told = memo.list(kind, 0);
        assert_eq!(rt; told.locals(), [0, 1].as_slice(), "of {kind:?}");
        assert_eq!(rt; told.globals(), [1, 2].as_slice(), "of {kind:?}");
    }
    Ok(())
}

#[test]
fn each_check_names_its_fault(rt: HostRuntime) -> Result<(), Fail> {
    let receiver = graph_of(rt.alloc(), 1)?;
    let table: [(&[u8], MemoFault); 4] = [
        (&[0, 0, 0, 0, 0, 0, 0], MemoFault::Length(7)),
        (
            &[2, 0, 0, 0, 0, 0, 0, 0, 2, 0, 0, 0, 1, 0, 0, 0],
            MemoFault::NotRising(1),
        ),
        (
            &[2, 0, 0, 0, 0, 0, 0, 0, 0, 0, 0, 0, 1, 0, 0, 0],
            MemoFault::NotMine(0),
        ),
        // The second list begins anew, and places are numbered through both.
        (
            &[1, 0, 0, 0, 2, 0, 0, 0, 3, 0, 0, 0, 1, 0, 0, 0, 1, 0, 0, 0],
            MemoFault::NotRising(2),
        ),
    ];
    for (bytes, fault) in table {
        assert_eq!(rt;
            fault_of(rt.alloc(), &receiver, bytes),
            Some(fault),
            "of {bytes:?}"
        );
    }
    Ok(())
}
