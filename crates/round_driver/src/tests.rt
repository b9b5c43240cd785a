//! Rounds of two hosts and of sixty-four, by different picks.
ghost use Rattle.std.specs.Prelude.{◌≡◌, ℕ, ◌+◌, ◌-◌, ◌<◌, ◌^◌, ◌==◌, cond, min, nat_eq, IfOk, Some};
ghost use Rattle.std.proofs.Common.{arith};
ghost use Rattle.cusp_rules.specs.Hosts.{IsHostCount};
ghost use Rattle.reduce_laws.specs.NumberWords.{nat_eq_is_same};
ghost use Rattle.round_driver.specs.ClusterState.{StandsNow};

use crate::{Cluster, Tally, run_round};
use cusp_rules::MasterRule;
use edge_owner::{OwnerRule, Rules};
use graph_maker::make;
use graph_model::{Edge, EdgeList, Way};
use host_core::Host;
use io_edge::{FirstPicks, LastPicks, ListedPicks, Picker};
use memo_exchange::exchange;
use packet_table::Channels;
use partition_build::build_list;
use reduce_laws::{MinU32, VertexProgram};
use std::alloc::{AllocError, Global};
use std::process::Abort;
use std::test::Fail;

// How many arcs lead from the root to each vertex.
#[derive(Clone, Copy)]
struct Levels {
    root: u32,
}

impl VertexProgram for Levels {
    type Red = MinU32;

    type State = u32;

    type Shown = u32;

    ghost IsState = { λ x. x < 256 ^ 4 };

    ghost steps = { λ program. record {
      start = λ v. cond (v == program.root) 0 (256 ^ 4 - 1);
      shown = λ state. state;
      same = nat_eq;
      along = λ shown weight. min (shown + 1) (256 ^ 4 - 1);
      settle = min;
      keep = λ shown. shown;
      answer = λ state. Some state;
    } };

    ghost laws = { λ program. record {
      start_is_state = λ v h. Prim.grind arith;
      settle_is_state = λ s x hs hx. Prim.omega arith;
      shown_is_value = λ s hs. hs;
      along_is_value = λ y weight hy hw. Prim.omega arith;
      keep_is_value = λ y hy. hy;
      same_tells = λ x y hx hy. nat_eq_is_same x y;
      settle_then_identity = λ s x hs hx. Prim.omega arith;
      settle-settle = λ kept s x y hs hx hy. Prim.omega arith;
      settle-identity = λ kept s hs. Prim.omega arith;
      settle-keep = λ kept s hs. Prim.omega arith;
      keep_is_identity = λ resets. absurd (Prim.cc);
    } };

    fn start(&self, v: u32) -> u32 {
        if v == self.root { 0 } else { u32::MAX }
    }

    fn shown(&self, state: u32) -> u32 {
        state
    }

    fn along(&self, shown: u32, _weight: u32) -> u32 {
        shown.saturating_add(1)
    }

    fn settle(&self, state: u32, got: u32) -> u32 {
        state.min(got)
    }

    fn keep(&self, shown: u32) -> u32 {
        shown
    }

    fn answer(&self, state: u32) -> Option<u64> {
        Some(u64::from(state))
    }
}

// An edge of weight 1.
fn edge(src: u32, dst: u32) -> Edge
    ensures { result ≡ record { src = src; dst = dst; weight = 1 } }
{
    Edge {
        src,
        dst,
        weight: 1,
    }
}

// Edges 0 to 1, 0 to 2, 1 to 3 and 2 to 3.
fn diamond(alloc: Global) -> Result<EdgeList, AllocError> {
    let edges = vec![in alloc; edge(0, 1), edge(0, 2), edge(1, 3), edge(2, 3)]?;
    Ok(EdgeList::from_parts(4, edges))
}

// So many hosts before the first round of a program on a graph, which is divided by these rules.
fn cluster<P: VertexProgram>(
    alloc: Global,
    list: &EdgeList,
    rules: Rules,
    hosts: u16,
    program: P,
) -> Result<Cluster<P>, AllocError>
    requires { IsHostCount hosts }
    ensures round { IfOk result (λ cluster. cluster.round ≡ 0) }
    ensures stands { IfOk result (λ cluster. StandsNow P.Red.reducer (P.steps cluster.program) P.Red.Item.WIDTH P.Shown.WIDTH P.Red.Item.bytes_of P.Shown.bytes_of cluster) }
{
    let graphs = build_list(alloc, list, rules, hosts)?;
    let memos = exchange(alloc, &graphs, Way::Outward, &mut FirstPicks)?;
    Cluster::new(alloc, graphs, memos, program, Way::Outward)
}

// The next round comes to this, and leaves this payload on the one channel.
fn expect_round<P: VertexProgram, K: Picker>(
    rt: &impl Abort,
    cluster: &mut Cluster<P>,
    picker: &mut K,
    tally: Tally,
    payload: &[u8],
)
    requires round { cluster.old.round < 2 ^ 32 }
    requires stands { StandsNow P.Red.reducer (P.steps cluster.old.program) P.Red.Item.WIDTH P.Shown.WIDTH P.Red.Item.bytes_of P.Shown.bytes_of cluster.old }
    ensures round { cluster.new.round ≡ cluster.old.round + 1 }
    ensures stands { StandsNow P.Red.reducer (P.steps cluster.new.program) P.Red.Item.WIDTH P.Shown.WIDTH P.Red.Item.bytes_of P.Shown.bytes_of cluster.new }
{
    assert_eq!(rt; run_round(cluster, picker), tally);
    assert!(rt; cluster.channels().count() == 1);
    assert_eq!(rt; cluster.channels().payload(0), payload);
}

// What a round of one packet comes to.
fn tally(changed: u64, bytes: u64) -> Tally {
    Tally {
        changed,
        packets: 1,
        bytes,
    }
}

// Adds the states of a host's masters, each with the host's number.
fn push_states(states: &mut Vec<(u16, u32)>, host: &Host<Levels>) -> Result<(), AllocError> {
    let graph = host.graph();
    for lid in 0..graph.masters() {
        states.push((graph.host(), host.state(lid)))?;
    }
    Ok(())
}

// Three rounds on the diamond, where vertex 0 has its master on host 0 and the others on host 1.
fn expect_rounds<K: Picker>(
    rt: &impl Abort,
    alloc: Global,
    picker: &mut K,
) -> Result<(), AllocError> {
    let rules = Rules {
        masters: MasterRule::Edges,
        owner: OwnerRule::Source,
    };
    let mut cluster = cluster(alloc, &diamond(alloc)?, rules, 2, Levels { root: 0 })?;
    expect_round(
        rt,
        &mut cluster,
        picker,
        tally(2, 9),
        &[0, 1, 0, 0, 0, 1, 0, 0, 0],
    );
    expect_round(rt, &mut cluster, picker, tally(1, 1), &[3]);
    expect_round(rt, &mut cluster, picker, tally(0, 1), &[3]);
    assert_eq!(rt; cluster.round(), 3);
    let mut states = Vec::new(alloc);
    for host in cluster.hosts() {
        push_states(&mut states, host)?;
    }
    assert_eq!(rt;
        states.as_slice(),
        [(0, 0), (1, 1), (1, 1), (1, 2)].as_slice()
    );
    Ok(())
}

#[test]
fn three_rounds_of_two_hosts_whatever_is_picked(rt: HostRuntime) -> Result<(), Fail> {
    let alloc = rt.alloc();
    expect_rounds(&rt, alloc, &mut FirstPicks)?;
    expect_rounds(&rt, alloc, &mut LastPicks)?;
    let mut picker = ListedPicks::new(vec![in alloc; 0, 0, 1, 1, 0, 2, 1, 0]?);
    expect_rounds(&rt, alloc, &mut picker)?;
    assert_eq!(rt; picker.asked(), 15);
    Ok(())
}

// The same was last posted on all channels.
fn expect_same(rt: &impl Abort, first: &Channels, last: &Channels) {
    assert!(rt; first.count() == last.count());
    for id in 0..first.count() {
        assert_eq!(rt; first.payload(id), last.payload(id), "on channel {id}");
    }
}

#[test]
fn sixty_four_hosts_run_a_round(rt: HostRuntime) -> Result<(), Fail> {
    let alloc = rt.alloc();
    let list = make(alloc, 64, 1)?;
    let rules = Rules {
        masters: MasterRule::Nodes,
        owner: OwnerRule::Cartesian,
    };
    let mut first = cluster(alloc, &list, rules, 64, Levels { root: 0 })?;
    let mut last = cluster(alloc, &list, rules, 64, Levels { root: 0 })?;
    let tally = run_round(&mut first, &mut FirstPicks);
    assert_eq!(rt; run_round(&mut last, &mut LastPicks), tally);
    expect_same(&rt, first.channels(), last.channels());
    Ok(())
}
