//! Pushes on one host of two, against values reckoned by hand.
ghost use Rattle.std.specs.Prelude.{◌≡◌, ◌+◌, ◌-◌, ◌%◌, ◌^◌, ◌<◌, false, length, min, nat_eq, All, IfOk, IsTrue, Some, refl};
ghost use Rattle.std.proofs.Common.{arith};
ghost use Rattle.cusp_rules.specs.Formulas.{IsStarts};
ghost use Rattle.graph_model.specs.Graph.{IsWithin};
ghost use Rattle.reduce_laws.specs.NumberWords.{nat_eq_is_same};

use crate::push_awake;
use cusp_rules::{MasterRule, Masters};
use graph_model::{Edge, Way};
use proxy_graph::LocalGraph;
use reduce_laws::{AddU32, MinU32, Reduction, VertexProgram};
use std::alloc::{AllocError, Global};
use std::process::Abort;
use std::test::Fail;
use update_bits::UpdateBits;

// The least cost of a way that leads here.
#[derive(Clone, Copy)]
struct LeastCost;

impl VertexProgram for LeastCost {
    type Red = MinU32;

    type State = u32;

    type Shown = u32;

    ghost IsState = { λ x. x < 256 ^ 4 };

    ghost steps = { λ _. record {
      start = λ v. v;
      shown = λ state. state;
      same = nat_eq;
      along = λ shown weight. min (shown + weight) (256 ^ 4 - 1);
      settle = min;
      keep = λ shown. shown;
      answer = λ state. Some state;
    } };

    ghost laws = { λ _. record {
      start_is_state = λ v h. Prim.omega arith;
      settle_is_state = λ s x hs hx. Prim.omega arith;
      shown_is_value = λ s hs. hs;
      along_is_value = λ y weight hy hw. Prim.omega arith;
      keep_is_value = λ y hy. hy;
      same_tells = λ x y hx hy. nat_eq_is_same x y;
      settle_then_identity = λ s x hs hx. Prim.omega arith;
      settle-settle = λ kept s x y hs hx hy. Prim.omega arith;
      settle-identity = λ kept s hs. Prim.omega arith;
      settle-keep = λ kept s hs. Prim.omega arith;
      keep_is_identity = λ resets. absurd (Prim.cc);
    } };

    fn start(&self, v: u32) -> u32 {
        v
    }

    fn shown(&self, state: u32) -> u32 {
        state
    }

    fn along(&self, shown: u32, weight: u32) -> u32 {
        shown.saturating_add(weight)
    }

    fn settle(&self, state: u32, got: u32) -> u32 {
        state.min(got)
    }

    fn keep(&self, shown: u32) -> u32 {
        shown
    }

    fn answer(&self, state: u32) -> Option<u64> {
        Some(u64::from(state))
    }
}

// The sum of the weights of the arcs that lead here.
#[derive(Clone, Copy)]
struct WeightSum;

impl VertexProgram for WeightSum {
    type Red = AddU32;

    type State = u32;

    type Shown = u8;

    ghost IsState = { λ x. x < 256 ^ 4 };

    ghost steps = { λ _. record {
      start = λ v. 0;
      shown = λ state. 0;
      same = nat_eq;
      along = λ shown weight. weight;
      settle = λ state got. (state + got) % 2 ^ 32;
      keep = λ shown. 0;
      answer = λ state. Some state;
    } };

    ghost laws = { λ _. record {
      start_is_state = λ v h. Prim.omega arith;
      settle_is_state = λ s x hs hx. Prim.omega arith;
      shown_is_value = λ s hs. Prim.omega arith;
      along_is_value = λ y weight hy hw. Prim.omega arith;
      keep_is_value = λ y hy. Prim.omega arith;
      same_tells = λ x y hx hy. nat_eq_is_same x y;
      settle_then_identity = λ s x hs hx. Prim.omega arith;
      settle-settle = λ kept. absurd (Prim.cc);
      settle-identity = λ kept. absurd (Prim.cc);
      settle-keep = λ kept. absurd (Prim.cc);
      keep_is_identity = λ resets y hy. refl;
    } };

    fn start(&self, _v: u32) -> u32 {
        0
    }

    fn shown(&self, _state: u32) -> u8 {
        0
    }

    fn along(&self, _shown: u8, weight: u32) -> u32 {
        weight
    }

    fn settle(&self, state: u32, got: u32) -> u32 {
        state.wrapping_add(got)
    }

    fn keep(&self, _shown: u8) -> u32 {
        0
    }

    fn answer(&self, state: u32) -> Option<u64> {
        Some(u64::from(state))
    }
}

// Whether these may be the starts of a small graph.
fn are_starts(starts: &[u32]) -> bool
    ensures { IsTrue result → IsStarts starts.now }
{
    if starts.is_empty() || starts.len() > 100 || starts[0] != 0 {
        return false;
    }
    starts[starts.len() - 1] <= 100 && starts.is_sorted()
}

// Vertex 0 has its master on host 0; 1, 2 and 3 have theirs on host 1.
fn masters(alloc: Global) -> Result<Masters, AllocError>
    ensures hosts { IfOk result (λ made. made.hosts ≡ 2) }
    ensures nodes { IfOk result (λ made. length made.masters ≡ 4) }
{
    let starts = [0, 2, 3, 4, 4];
    if !are_starts(&starts) {
        return Err(AllocError);
    }
    Masters::new(alloc, MasterRule::Edges, 2, &starts)
}

// Whether the ends of these edges are nodes.
fn are_within(nodes: u32, edges: &[Edge]) -> bool
    ensures { IsTrue result → All (IsWithin nodes) edges.now }
{
    edges
        .iter()
        .all(|edge| edge.src < nodes && edge.dst < nodes)
}

fn edge(src: u32, dst: u32, weight: u32) -> Edge {
    Edge { src, dst, weight }
}

// Numbers below three.
fn set_of(alloc: Global, members: [bool; 3]) -> Result<UpdateBits, AllocError>
    ensures { IfOk result (λ bits. length bits ≡ 3) }
{
    let mut bits = UpdateBits::new(alloc, 3)?;
    if members[0] {
        bits.set(0);
    }
    if members[1] {
        bits.set(1);
    }
    if members[2] {
        bits.set(2);
    }
    Ok(bits)
}

// Pushes once on host 0, which has proxies of the vertices 0, 1 and 2, and says which have news then.
fn pushed<P: VertexProgram>(
    rt: &impl Abort,
    alloc: Global,
    program: &P,
    edges: &[Edge],
    way: Way,
    shown: &[P::Shown],
    awake: [bool; 3],
    items: &mut [<P::Red as Reduction>::Item],
) -> Result<[bool; 3], Fail>
    requires shown_fit { length shown.now ≡ 3 }
    requires shown_are { All P.Shown.IsValue shown.now }
    requires items_fit { length items.old ≡ 3 }
    requires items_are { All P.Red.Item.IsValue items.old }
    requires nothing_kept { P.Red.reducer.keeps ≡ false → All (λ item. item ≡ P.Red.reducer.identity) items.old }
{
    assert!(rt; edges.len() < 100 && are_within(4, edges));
    let masters = masters(alloc)?;
    let graph = LocalGraph::assemble(alloc, 0, &masters, 4, edges)?;
    assert!(rt; graph.proxies() == 3);
    let awake = set_of(alloc, awake)?;
    let mut news = UpdateBits::new(alloc, 3)?;
    push_awake(program, &graph, way, shown, &awake, items, &mut news);
    Ok([news.test(0), news.test(1), news.test(2)])
}

#[test]
fn the_least_cost_goes_along_arcs_of_awake_proxies(rt: HostRuntime) -> Result<(), Fail> {
    // Two ways from 0 to 2, and one back.
    let edges = [edge(0, 1, 2), edge(0, 2, 3), edge(1, 2, 1), edge(2, 0, 4)];
    for (way, awake, want, news) in [
        (
            Way::Outward,
            [true, false, true],
            [5, 2, 3],
            [true, true, false],
        ),
        (
            Way::Inward,
            [true, false, true],
            [4, 2, 3],
            [true, true, false],
        ),
        (
            Way::Both,
            [false, true, false],
            [12, 9, 3],
            [true, false, false],
        ),
        (
            Way::Both,
            [false, false, false],
            [u32::MAX, 9, 3],
            [false, false, false],
        ),
    ] {
        let mut items = [u32::MAX, 9, 3];
        let got = pushed(
            &rt,
            rt.alloc(),
            &LeastCost,
            &edges,
            way,
            &[0, 10, 1],
            awake,
            &mut items,
        )?;
        assert_eq!(rt; (items, got), (want, news));
    }
    Ok(())
}

#[test]
fn sums_that_come_back_to_nothing_are_no_news(rt: HostRuntime) -> Result<(), Fail> {
    let edges = [edge(0, 1, 2), edge(0, 1, u32::MAX - 1), edge(0, 2, 3)];
    let mut items = [0; 3];
    let got = pushed(
        &rt,
        rt.alloc(),
        &WeightSum,
        &edges,
        Way::Outward,
        &[0; 3],
        [true; 3],
        &mut items,
    )?;
    assert_eq!(rt; (items, got), ([0, 0, 3], [false, false, true]));
    Ok(())
}
