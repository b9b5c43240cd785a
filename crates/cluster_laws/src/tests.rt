//! The laws of rounds, packets, hosts and clusters, each at a small lawful program.
ghost use Rattle.std.specs.Prelude.{◌≡◌, ◌^◌, ◌<◌, min, nat_eq, Some};
ghost use Rattle.std.proofs.Common.{arith};
ghost use Rattle.reduce_laws.specs.NumberWords.{nat_eq_is_same};

use crate::{
    end_laws, number_laws, one_round, packets_are_posted, rounds_end, step_laws, table_laws,
};
use graph_division::{
    file_order_stays, graphs_have_arcs, hosts_see_themselves, lists_rise, mirrors_are_of_no_way,
    partitions_divide, written_is_reduced,
};
use host_laws::{
    close_stands, compute_stands, fresh_stands, spread_stands, take_broadcast_stands,
    take_reduce_stands,
};
use lone_rounds::{arc_order_is_free, only_reached_change, quiet_stays, shares_bring};
use reduce_laws::{MinU32, VertexProgram};
use round_packets::{
    agreeing_have_same_bytes, entries_are_carried, given_settles, kept_is_no_news,
    packets_are_forms, untold_is_unchanged,
};

// The least number of a vertex from which arcs lead here.
#[derive(Clone, Copy)]
struct LeastLabel;

impl VertexProgram for LeastLabel {
    type Red = MinU32;

    type State = u32;

    type Shown = u32;

    ghost IsState = { λ x. x < 256 ^ 4 };

    ghost steps = { λ _. record {
      start = λ v. v;
      shown = λ state. state;
      same = nat_eq;
      along = λ shown weight. shown;
      settle = min;
      keep = λ shown. shown;
      answer = λ state. Some state;
    } };

    ghost laws = { λ _. record {
      start_is_state = λ v h. Prim.omega arith;
      settle_is_state = λ s x hs hx. Prim.omega arith;
      shown_is_value = λ s hs. hs;
      along_is_value = λ y weight hy hw. hy;
      keep_is_value = λ y hy. hy;
      same_tells = λ x y hx hy. nat_eq_is_same x y;
      settle_then_identity = λ s x hs hx. Prim.omega arith;
      settle-settle = λ kept s x y hs hx hy. Prim.omega arith;
      settle-identity = λ kept s hs. Prim.omega arith;
      settle-keep = λ kept s hs. Prim.omega arith;
      keep_is_identity = λ resets. absurd (Prim.cc);
    } };

    fn start(&self, v: u32) -> u32 {
        v
    }

    fn shown(&self, state: u32) -> u32 {
        state
    }

    fn along(&self, shown: u32, _weight: u32) -> u32 {
        shown
    }

    fn settle(&self, state: u32, got: u32) -> u32 {
        state.min(got)
    }

    fn keep(&self, shown: u32) -> u32 {
        shown
    }

    fn answer(&self, state: u32) -> Option<u64> {
        Some(u64::from(state))
    }
}

#[test]
fn laws_of_rounds_return() {
    quiet_stays::<LeastLabel>();
    only_reached_change::<LeastLabel>();
    arc_order_is_free::<LeastLabel>();
    shares_bring::<LeastLabel>();
}

#[test]
fn laws_of_divisions_return() {
    graphs_have_arcs();
    lists_rise();
    written_is_reduced();
    partitions_divide();
    hosts_see_themselves();
    mirrors_are_of_no_way();
    file_order_stays();
}

#[test]
fn laws_of_packets_return() {
    kept_is_no_news::<LeastLabel>();
    given_settles::<LeastLabel>();
    entries_are_carried::<u32>();
    agreeing_have_same_bytes::<u8>();
    untold_is_unchanged::<LeastLabel>();
    packets_are_forms::<LeastLabel>();
}

#[test]
fn laws_of_hosts_return() {
    fresh_stands::<LeastLabel>();
    compute_stands::<LeastLabel>();
    take_reduce_stands::<LeastLabel>();
    spread_stands::<LeastLabel>();
    take_broadcast_stands::<LeastLabel>();
    close_stands::<LeastLabel>();
}

#[test]
fn laws_of_clusters_return() {
    step_laws::<LeastLabel>();
    end_laws::<LeastLabel>();
    one_round::<LeastLabel>();
    number_laws();
    table_laws::<LeastLabel>();
    rounds_end::<LeastLabel>();
    packets_are_posted::<LeastLabel>();
}
