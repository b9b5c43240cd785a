//! An exchange between two hosts of a small graph.
ghost use Rattle.std.specs.Prelude.{◌≡◌, ◌<◌, ◌≤◌, [], ◌∷◌, length, vec_len, IfOk, IsTrue, All};
ghost use Rattle.graph_model.specs.Graph.{IsWithin};
ghost use Rattle.cusp_rules.specs.Formulas.{IsStarts};
ghost use Rattle.graph_division.specs.Partition.{IsPartition};

use crate::exchange;
use address_memo::{ListKind, Memo};
use cusp_rules::{MasterRule, Masters};
use graph_model::{Edge, Way};
use io_edge::{FirstPicks, LastPicks, ListedPicks, Picker};
use proxy_graph::LocalGraph;
use std::alloc::{AllocError, Global};
use std::test::Fail;

// Whether these may be the starts of a small graph.
fn are_starts(starts: &[u32]) -> bool
    ensures { IsTrue result → IsStarts starts.now }
{
    if starts.is_empty() || starts.len() > 100 || starts[0] != 0 {
        return false;
    }
    starts[starts.len() - 1] <= 100 && starts.is_sorted()
}

// Vertex 0 has its master on host 0; 1, 2 and 3 have theirs on host 1.
fn masters(alloc: Global) -> Result<Masters, AllocError>
    ensures hosts { IfOk result (λ made. made.hosts ≡ 2) }
    ensures nodes { IfOk result (λ made. length made.masters ≡ 4) }
{
    let starts = [0, 2, 3, 4, 4];
    if !are_starts(&starts) {
        return Err(AllocError);
    }
    Masters::new(alloc, MasterRule::Edges, 2, &starts)
}

// Two edges of weight 1.
fn edges(first: (u32, u32), second: (u32, u32)) -> [Edge; 2]
    requires first { (first.0 < 4) × (first.1 < 4) }
    requires second { (second.0 < 4) × (second.1 < 4) }
    ensures within { All (IsWithin 4) result }
    ensures count { length result ≡ 2 }
{
    [
        Edge {
            src: first.0,
            dst: first.1,
            weight: 1,
        },
        Edge {
            src: second.0,
            dst: second.1,
            weight: 1,
        },
    ]
}

// Whether two local graphs with the same masters are those of a small partition.
fn are_partition(first: &LocalGraph, second: &LocalGraph) -> bool
    requires { first.now.masters ≡ second.now.masters }
    ensures { IsTrue result → IsPartition (first.now ∷ second.now ∷ []) }
{
    if first.host() != 0 || second.host() != 1 {
        return false;
    }
    if first.hosts() != 2 || second.hosts() != 2 {
        return false;
    }
    if first.edges() > 100 {
        return false;
    }
    second.edges() <= 100
}

// Edges 0 to 1 and 0 to 2 on host 0, 1 to 3 and 2 to 3 on host 1.
fn partition(alloc: Global) -> Result<Vec<LocalGraph>, AllocError>
    ensures partition { IfOk result (λ graphs. IsPartition graphs.items) }
    ensures count { IfOk result (λ graphs. vec_len graphs ≡ 2) }
{
    let masters = masters(alloc)?;
    let first = LocalGraph::assemble(alloc, 0, &masters, 4, &edges((0, 1), (0, 2)))?;
    let second = LocalGraph::assemble(alloc, 1, &masters, 4, &edges((1, 3), (2, 3)))?;
    if !are_partition(&first, &second) {
        return Err(AllocError);
    }
    Ok(vec![in alloc; first, second]?)
}

// The memos of both hosts after an exchange.
fn exchanged<K: Picker>(alloc: Global, picker: &mut K) -> Result<Vec<Memo>, AllocError>
    ensures count { IfOk result (λ memos. vec_len memos ≡ 2) }
    ensures hosts { IfOk result (λ memos. All (λ memo. memo.hosts ≡ 2) memos.items) }
{
    let graphs = partition(alloc)?;
    exchange(alloc, &graphs, Way::Outward, picker)
}

// Host 0 reduces vertices 1 and 2 to host 1, and nothing else is exchanged.
fn have_their_lists(memos: &[Memo]) -> bool
    requires count { length memos.now ≡ 2 }
    requires hosts { All (λ memo. memo.hosts ≡ 2) memos.now }
{
    let told = memos[1].list(ListKind::ReduceFrom, 0);
    memos[0].list(ListKind::ReduceTo, 1).globals() == [1, 2].as_slice()
        && told.globals() == [1, 2].as_slice()
        && told.locals() == [0, 1].as_slice()
        && memos[0].list(ListKind::SpreadFrom, 1).globals().is_empty()
        && memos[1].list(ListKind::SpreadTo, 0).globals().is_empty()
        && memos[0].list(ListKind::ReduceFrom, 1).globals().is_empty()
        && memos[1].list(ListKind::ReduceTo, 0).globals().is_empty()
}

#[test]
fn any_picks_give_the_same_lists(rt: HostRuntime) -> Result<(), Fail> {
    assert!(rt; have_their_lists(&exchanged(rt.alloc(), &mut FirstPicks)?));
    assert!(rt; have_their_lists(&exchanged(rt.alloc(), &mut LastPicks)?));
    let mut picker = ListedPicks::new(vec![in rt.alloc(); 7u32]?);
    assert!(rt; have_their_lists(&exchanged(rt.alloc(), &mut picker)?));
    assert_eq!(rt; picker.asked(), 1);
    assert_eq!(rt; picker.begun(), None);
    Ok(())
}
