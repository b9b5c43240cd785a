//! A round of one host of two, which takes what the other sends.
ghost use Rattle.std.specs.Prelude.{◌≡◌, ℕ, ◌+◌, ◌-◌, ◌<◌, ◌^◌, ◌==◌, cond, min, nat_eq, [], ◌∷◌, false, length, IfOk, IsTrue, Some};
ghost use Rattle.std.proofs.Common.{arith};
ghost use Rattle.std.specs.List.{slice_index_or};
ghost use Rattle.graph_model.specs.Graph.{IsWithin};
ghost use Rattle.graph_model.specs.declared.edge.Way.TheVariants.{Outward};
ghost use Rattle.cusp_rules.specs.Formulas.{IsStarts};
ghost use Rattle.address_memo.specs.Memos.{Fits, list_at};
ghost use Rattle.address_memo.specs.Kinds.{list_for};
ghost use Rattle.reduce_laws.specs.NumberWords.{nat_eq_is_same};
ghost use Rattle.cluster_laws.specs.Channels.{is_needed};

use crate::Host;
use address_memo::{ListKind, Memo, memos_fit, read_memo};
use cusp_rules::{MasterRule, Masters};
use field_encodings::decode;
use graph_model::{Edge, Way};
use packet_table::{ChannelSpec, Channels, Leg};
use proxy_graph::LocalGraph;
use reduce_laws::{MinU32, VertexProgram};
use std::alloc::{AllocError, Global};
use std::test::Fail;

// How many arcs lead from the root to each vertex.
#[derive(Clone, Copy)]
struct Levels {
    root: u32,
}

impl VertexProgram for Levels {
    type Red = MinU32;

    type State = u32;

    type Shown = u32;

    ghost IsState = { λ x. x < 256 ^ 4 };

    ghost steps = { λ program. record {
      start = λ v. cond (v == program.root) 0 (256 ^ 4 - 1);
      shown = λ state. state;
      same = nat_eq;
      along = λ shown weight. min (shown + 1) (256 ^ 4 - 1);
      settle = min;
      keep = λ shown. shown;
      answer = λ state. Some state;
    } };

    ghost laws = { λ program. record {
      start_is_state = λ v h. Prim.grind arith;
      settle_is_state = λ s x hs hx. Prim.omega arith;
      shown_is_value = λ s hs. hs;
      along_is_value = λ y weight hy hw. Prim.omega arith;
      keep_is_value = λ y hy. hy;
      same_tells = λ x y hx hy. nat_eq_is_same x y;
      settle_then_identity = λ s x hs hx. Prim.omega arith;
      settle-settle = λ kept s x y hs hx hy. Prim.omega arith;
      settle-identity = λ kept s hs. Prim.omega arith;
      settle-keep = λ kept s hs. Prim.omega arith;
      keep_is_identity = λ resets. absurd (Prim.cc);
    } };

    fn start(&self, v: u32) -> u32 {
        if v == self.root { 0 } else { u32::MAX }
    }

    fn shown(&self, state: u32) -> u32 {
        state
    }

    fn along(&self, shown: u32, _weight: u32) -> u32 {
        shown.saturating_add(1)
    }

    fn settle(&self, state: u32, got: u32) -> u32 {
        state.min(got)
    }

    fn keep(&self, shown: u32) -> u32 {
        shown
    }

    fn answer(&self, state: u32) -> Option<u64> {
        Some(u64::from(state))
    }
}

// Whether these may be the starts of a small graph.
fn are_starts(starts: &[u32]) -> bool
    ensures { IsTrue result → IsStarts starts.now }
{
    if starts.is_empty() || starts.len() > 100 || starts[0] != 0 {
        return false;
    }
    starts[starts.len() - 1] <= 100 && starts.is_sorted()
}

// Vertex 0 has its master on host 0; 1, 2 and 3 have theirs on host 1.
fn masters(alloc: Global) -> Result<Masters, AllocError>
    ensures hosts { IfOk result (λ made. made.hosts ≡ 2) }
    ensures nodes { IfOk result (λ made. length made.masters ≡ 4) }
{
    let starts = [0, 2, 3, 4, 4];
    if !are_starts(&starts) {
        return Err(AllocError);
    }
    Masters::new(alloc, MasterRule::Edges, 2, &starts)
}

// An edge of weight 1.
fn edge(src: u32, dst: u32) -> Edge
    requires src { src < 4 }
    requires dst { dst < 4 }
    ensures { IsWithin 4 result }
{
    Edge {
        src,
        dst,
        weight: 1,
    }
}

// The graph of host 1, with the edges from 1 and from 2 to 3: three masters and no mirror.
fn second_graph(alloc: Global) -> Result<LocalGraph, AllocError>
    ensures { IfOk result (λ graph. graph.hosts ≡ 2) }
{
    let masters = masters(alloc)?;
    LocalGraph::assemble(alloc, 1, &masters, 4, &[edge(1, 3), edge(2, 3)])
}

// The lists of host 1, which host 0 told that it reduces the vertices 1 and 2 to it.
fn second_memo(alloc: Global, graph: &LocalGraph) -> Result<Memo, Fail>
    requires { graph.now.hosts ≡ 2 }
    ensures { IfOk result (Fits Outward graph.now) }
{
    let told = [2, 0, 0, 0, 0, 0, 0, 0, 1, 0, 0, 0, 2, 0, 0, 0];
    let mut memo = Memo::open(alloc, graph, Way::Outward)?;
    memo.accept(0, read_memo(alloc, graph, &told)?);
    memos_fit();
    Ok(memo)
}

// Whether a host of two has no proxies of this kind.
fn has_none(memo: &Memo, kind: ListKind) -> bool
    requires { memo.now.hosts ≡ 2 }
    ensures first { IsTrue result → (list_for memo.now kind 0).globals ≡ [] }
    ensures second { IsTrue result → (list_for memo.now kind 1).globals ≡ [] }
{
    memo.list(kind, 0).globals().is_empty() && memo.list(kind, 1).globals().is_empty()
}

// Whether a host of two sends nothing, and host 0 reduces the vertices 1 and 2 to it.
fn takes_two(memo: &Memo) -> bool
    requires { memo.now.hosts ≡ 2 }
    ensures takes { IsTrue result → (list_at memo.now.reduce_from 0).globals ≡ 1 ∷ 2 ∷ [] }
    ensures no_reduces { IsTrue result → (to : ℕ) → is_needed (list_at memo.now.reduce_to to).globals ≡ false }
    ensures no_broadcasts { IsTrue result → (to : ℕ) → is_needed (list_at memo.now.spread_to to).globals ≡ false }
{
    if !has_none(memo, ListKind::ReduceTo) || !has_none(memo, ListKind::SpreadTo) {
        return false;
    }
    memo.list(ListKind::ReduceFrom, 0).globals() == [1, 2].as_slice()
}

// Host 1 before its first round.
fn second_host(alloc: Global) -> Result<Host<Levels>, Fail>
    ensures hosts { IfOk result (λ host. host.graph.hosts ≡ 2) }
    ensures takes { IfOk result (λ host. (list_at host.memo.reduce_from 0).globals ≡ 1 ∷ 2 ∷ []) }
    ensures no_reduces { IfOk result (λ host. (to : ℕ) → is_needed (list_at host.memo.reduce_to to).globals ≡ false) }
    ensures no_broadcasts { IfOk result (λ host. (to : ℕ) → is_needed (list_at host.memo.spread_to to).globals ≡ false) }
    ensures none_taken { IfOk result (λ host. slice_index_or host.view.took_reduce 0 false ≡ false) }
    ensures not_spread { IfOk result (λ host. host.view.has_spread ≡ false) }
{
    let graph = second_graph(alloc)?;
    let memo = second_memo(alloc, &graph)?;
    if !takes_two(&memo) {
        return Err(AllocError)?;
    }
    Ok(Host::new(alloc, graph, memo, Levels { root: 0 }, Way::Outward)?)
}

// The channel for what host 0 reduces to host 1.
fn channel(alloc: Global) -> Result<Channels, AllocError> {
    let specs = vec![in alloc;
        ChannelSpec {
            leg: Leg::Reduce,
            from: 0,
            to: 1,
            room: 9
        },
    ]?;
    Channels::new(alloc, specs)
}

#[test]
fn a_master_takes_what_was_sent_and_wakes(rt: HostRuntime) -> Result<(), Fail> {
    let mut host = second_host(rt.alloc())?;
    let mut channels = channel(rt.alloc())?;
    let payload = [3, 1, 0, 0, 0, 5, 0, 0, 0];
    decode::<u32>(&payload, &[1, 2])?;
    assert!(rt; host.may_compute());
    host.compute(&mut channels);
    assert_eq!(rt; (host.may_compute(), host.may_spread()), (false, false));
    host.take_reduce(0, &payload);
    assert!(rt; host.may_spread());
    host.spread(&mut channels);
    assert!(rt; host.may_close());
    assert_eq!(rt; host.close(), 1);
    assert_eq!(rt; channels.flying_count(), 0);
    assert!(rt; host.graph().masters() == 3);
    assert_eq!(rt; (host.state(0), host.state(1)), (5, u32::MAX));
    Ok(())
}
