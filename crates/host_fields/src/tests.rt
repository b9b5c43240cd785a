//! The first round of a small graph on one of its hosts, and what its mirrors then keep.
ghost use Rattle.std.specs.Prelude.{◌≡◌, ◌==◌, ◌+◌, ◌-◌, ◌<◌, ◌^◌, cond, min, nat_eq, length, IfOk, IsTrue, All, Some};
ghost use Rattle.std.proofs.Common.{arith};
ghost use Rattle.graph_model.specs.Graph.{IsWithin};
ghost use Rattle.graph_division.specs.Shares.{masters_here};
ghost use Rattle.cusp_rules.specs.Formulas.{IsStarts};
ghost use Rattle.reduce_laws.specs.NumberWords.{nat_eq_is_same};

use crate::{
    bring_over, count_needed, keep_told, settle_news, start_items, start_news, start_shown,
    start_states,
};
use address_memo::{ListKind, Memo};
use cusp_rules::{MasterRule, Masters};
use field_encodings::decode;
use graph_model::{Edge, Way};
use proxy_graph::LocalGraph;
use reduce_laws::{MinU32, Reduction, VertexProgram, Word};
use std::alloc::{AllocError, Global};
use std::test::Fail;
use update_bits::UpdateBits;

// How many arcs lead from the root to each vertex.
#[derive(Clone, Copy)]
struct Levels {
    root: u32,
}

impl VertexProgram for Levels {
    type Red = MinU32;

    type State = u32;

    type Shown = u32;

    ghost IsState = { λ x. x < 256 ^ 4 };

    ghost steps = { λ program. record {
      start = λ v. cond (v == program.root) 0 (256 ^ 4 - 1);
      shown = λ state. state;
      same = nat_eq;
      along = λ shown weight. min (shown + 1) (256 ^ 4 - 1);
      settle = min;
      keep = λ shown. shown;
      answer = λ state. Some state;
    } };

    ghost laws = { λ program. record {
      start_is_state = λ v h. Prim.grind arith;
      settle_is_state = λ s x hs hx. Prim.omega arith;
      shown_is_value = λ s hs. hs;
      along_is_value = λ y weight hy hw. Prim.omega arith;
      keep_is_value = λ y hy. hy;
      same_tells = λ x y hx hy. nat_eq_is_same x y;
      settle_then_identity = λ s x hs hx. Prim.omega arith;
      settle-settle = λ kept s x y hs hx hy. Prim.omega arith;
      settle-identity = λ kept s hs. Prim.omega arith;
      settle-keep = λ kept s hs. Prim.omega arith;
      keep_is_identity = λ resets. absurd (Prim.cc);
    } };

    fn start(&self, v: u32) -> u32 {
        if v == self.root { 0 } else { u32::MAX }
    }

    fn shown(&self, state: u32) -> u32 {
        state
    }

    fn along(&self, shown: u32, _weight: u32) -> u32 {
        shown.saturating_add(1)
    }

    fn settle(&self, state: u32, got: u32) -> u32 {
        state.min(got)
    }

    fn keep(&self, shown: u32) -> u32 {
        shown
    }

    fn answer(&self, state: u32) -> Option<u64> {
        Some(u64::from(state))
    }
}

// Whether these may be the starts of a small graph.
fn are_starts(starts: &[u32]) -> bool
    ensures { IsTrue result → IsStarts starts.now }
{
    if starts.is_empty() || starts.len() > 100 || starts[0] != 0 {
        return false;
    }
    starts[starts.len() - 1] <= 100 && starts.is_sorted()
}

// Of four vertices 0 has its master on host 0, and the others have theirs on host 1.
fn masters(alloc: Global) -> Result<Masters, AllocError>
    ensures hosts { IfOk result (λ made. made.hosts ≡ 2) }
    ensures nodes { IfOk result (λ made. length made.masters ≡ 4) }
{
    let starts = [0, 2, 3, 4, 4];
    if !are_starts(&starts) {
        return Err(AllocError);
    }
    Masters::new(alloc, MasterRule::Edges, 2, &starts)
}

// An edge of weight 1.
fn edge(src: u32, dst: u32) -> Edge
    requires src { src < 4 }
    requires dst { dst < 4 }
    ensures { IsWithin 4 result }
{
    Edge {
        src,
        dst,
        weight: 1,
    }
}

// The graph of host 0, with the edges from 0 to 1 and to 2: 0 is a master, 1 and 2 are mirrors.
fn first_graph(alloc: Global) -> Result<LocalGraph, AllocError>
    ensures { IfOk result (λ graph. graph.hosts ≡ 2) }
{
    let masters = masters(alloc)?;
    LocalGraph::assemble(alloc, 0, &masters, 4, &[edge(0, 1), edge(0, 2)])
}

// Brings an item to the first master.
fn bring_first<R: Reduction>(items: &mut [R::Item], got: R::Item)
    requires first { 0 < length items.old }
    requires items_are { All R.Item.IsValue items.old }
    ensures are_items { All R.Item.IsValue items.new }
{
    got.told();
    items[0] = got;
}

// The states, what proxies show next and which are awake then, after a round that brings an item to the
// first master.
fn after_first_round<P: VertexProgram>(
    alloc: Global,
    program: &P,
    graph: &LocalGraph,
    got: <P::Red as Reduction>::Item,
) -> Result<(Vec<P::State>, Vec<P::Shown>, UpdateBits), AllocError>
    requires { 0 < length (masters_here graph.now) }
    ensures { IfOk result (λ round. 0 < length round.2) }
{
    let masters = graph.masters();
    let proxies = graph.proxies();
    let mut states = start_states(alloc, program, graph)?;
    let shown = start_shown(alloc, program, graph)?;
    let mut next = start_shown(alloc, program, graph)?;
    let mut items = start_items(alloc, program, masters, &shown)?;
    let mut news = start_news(alloc, masters, proxies)?;
    let mut awake = UpdateBits::new(alloc, proxies)?;
    bring_first::<P::Red>(&mut items, got);
    settle_news(
        program,
        masters,
        &shown,
        &mut states,
        &mut items,
        &mut next,
        &mut news,
        &mut awake,
    );
    Ok((states, next, awake))
}

#[test]
fn a_master_wakes_where_it_shows_something_new(rt: HostRuntime) -> Result<(), Fail> {
    let graph = first_graph(rt.alloc())?;
    assert!(rt; graph.masters() > 0);
    for (root, state, is_awake) in [(0, 0, false), (3, 7, true)] {
        let round = after_first_round(rt.alloc(), &Levels { root }, &graph, 7)?;
        assert_eq!(rt; round.0.as_slice(), [state].as_slice(), "from {root}");
        assert_eq!(rt;
            round.1.as_slice(),
            [state, u32::MAX, u32::MAX].as_slice(),
            "from {root}"
        );
        assert_eq!(rt; round.2.test(0), is_awake, "from {root}");
    }
    Ok(())
}

#[test]
fn all_that_is_new_is_brought_over_and_masters_are_counted(rt: HostRuntime) -> Result<(), Fail> {
    let mut awake = UpdateBits::new(rt.alloc(), 3)?;
    awake.set_all();
    let next = [4u32, 0, 6];
    let mut shown = [9, 9, 9];
    assert_eq!(rt; bring_over(2, &awake, &next, &mut shown), 2);
    assert_eq!(rt; shown, next);
    Ok(())
}

#[test]
fn mirrors_keep_what_they_are_told(rt: HostRuntime) -> Result<(), Fail> {
    let payload = [1, 5, 4, 0, 0, 0, 6, 0, 0, 0];
    let entries = decode::<u32>(&payload, &[10, 20, 30])?;
    let mut items = [9; 4];
    keep_told(&Levels { root: 0 }, entries, &[1, 2, 3], &mut items);
    assert_eq!(rt; items, [9, 4, 9, 6]);
    Ok(())
}

#[test]
fn lists_that_have_proxies_are_counted(rt: HostRuntime) -> Result<(), Fail> {
    let graph = first_graph(rt.alloc())?;
    let memo = Memo::open(rt.alloc(), &graph, Way::Outward)?;
    for (kind, count) in [(ListKind::ReduceTo, 1), (ListKind::SpreadFrom, 0)] {
        assert_eq!(rt; count_needed(&memo, kind, 2), count);
    }
    Ok(())
}
