//! What the two hosts of a small graph post for each other.
ghost use Rattle.std.specs.Prelude.{◌≡◌, ◌+◌, ◌<◌, ◌≤◌, [], length, IfOk, IsTrue, All};
ghost use Rattle.graph_model.specs.Graph.{IsWithin};
ghost use Rattle.cusp_rules.specs.Formulas.{IsStarts};
ghost use Rattle.list_laws.specs.Members.{no_members};
ghost use Rattle.address_memo.specs.Memos.{AreMemos};
ghost use Rattle.address_memo.specs.Kinds.{list_for};
ghost use Rattle.host_state.specs.Posting.{HasRoom};

use crate::{post_broadcasts, post_reduces};
use address_memo::{ListKind, Memo, memo_payload, read_memo};
use cusp_rules::{MasterRule, Masters};
use graph_model::{Edge, Way};
use packet_table::{ChannelSpec, Channels, Leg};
use proxy_graph::LocalGraph;
use reduce_laws::AddU32;
use std::alloc::{AllocError, Global};
use std::test::Fail;
use update_bits::UpdateBits;

// Whether these may be the starts of a small graph.
fn are_starts(starts: &[u32]) -> bool
    ensures { IsTrue result → IsStarts starts.now }
{
    if starts.is_empty() || starts.len() > 100 || starts[0] != 0 {
        return false;
    }
    starts[starts.len() - 1] <= 100 && starts.is_sorted()
}

// Vertex 0 has its master on host 0; 1, 2 and 3 have theirs on host 1.
fn masters(alloc: Global) -> Result<Masters, AllocError>
    ensures hosts { IfOk result (λ made. made.hosts ≡ 2) }
    ensures nodes { IfOk result (λ made. length made.masters ≡ 4) }
{
    let starts = [0, 2, 3, 4, 4];
    if !are_starts(&starts) {
        return Err(AllocError);
    }
    Masters::new(alloc, MasterRule::Edges, 2, &starts)
}

// Two edges of weight 1.
fn edges(first: (u32, u32), second: (u32, u32)) -> [Edge; 2]
    requires first { (first.0 < 4) × (first.1 < 4) }
    requires second { (second.0 < 4) × (second.1 < 4) }
    ensures within { All (IsWithin 4) result }
    ensures count { length result ≡ 2 }
{
    [
        Edge {
            src: first.0,
            dst: first.1,
            weight: 1,
        },
        Edge {
            src: second.0,
            dst: second.1,
            weight: 1,
        },
    ]
}

// The graph of a host: 0 to 1 and 0 to 2 on host 0, 1 to 3 and 2 to 3 on host 1.
fn graph_of(alloc: Global, host: u16) -> Result<LocalGraph, AllocError>
    requires { host < 2 }
    ensures { IfOk result (λ graph. graph.hosts ≡ 2) }
{
    let masters = masters(alloc)?;
    let edges = if host == 0 {
        edges((0, 1), (0, 2))
    } else {
        edges((1, 3), (2, 3))
    };
    LocalGraph::assemble(alloc, host, &masters, 4, &edges)
}

// One channel, with room for three values of four bytes.
fn channel(alloc: Global, leg: Leg, from: u16, to: u16) -> Result<Channels, AllocError>
    ensures { IfOk result (λ channels. channels.flying ≡ no_members (length channels.specs)) }
{
    let specs = vec![in alloc;
        ChannelSpec {
            leg,
            from,
            to,
            room: 13
        },
    ]?;
    Channels::new(alloc, specs)
}

// Whether the channel of a leg between two hosts is there.
fn has_room(channels: &Channels, leg: Leg, from: u16, to: u16) -> bool
    requires { channels.now.flying ≡ no_members (length channels.now.specs) }
    ensures { IsTrue result → HasRoom leg from to 13 channels.now }
{
    match channels.find(leg, from, to) {
        Some(id) => channels.spec(id).room == 13,
        None => false,
    }
}

// Whether a host of two has proxies of this kind with the other alone, each of them among its first three.
fn has_one_list(memo: &Memo, kind: ListKind, host: u16, peer: u16) -> bool
    requires hosts { memo.now.hosts ≡ 2 }
    requires peer { host + peer ≡ 1 }
    ensures memo { AreMemos memo.now }
    ensures no_locals { IsTrue result → (list_for memo.now kind host).locals ≡ [] }
    ensures no_globals { IsTrue result → (list_for memo.now kind host).globals ≡ [] }
    ensures few { IsTrue result → length (list_for memo.now kind peer).globals ≤ 3 }
    ensures below { IsTrue result → All (λ local. local < 3) (list_for memo.now kind peer).locals }
{
    let own = memo.list(kind, host);
    let list = memo.list(kind, peer);
    if !own.locals().is_empty() || !own.globals().is_empty() || list.globals().len() > 3 {
        return false;
    }
    list.locals().iter().all(|local| *local < 3)
}

// The first two of three numbers.
fn first_two(alloc: Global) -> Result<UpdateBits, AllocError>
    ensures { IfOk result (λ bits. length bits ≡ 3) }
{
    let mut bits = UpdateBits::new(alloc, 3)?;
    bits.set(0);
    bits.set(1);
    Ok(bits)
}

// Posts the mirrors of a host of two, or says that it cannot.
fn could_post_reduces(
    memo: &Memo,
    host: u16,
    items: &mut [u32],
    news: &mut UpdateBits,
    channels: &mut Channels,
) -> bool
    requires hosts { memo.now.hosts ≡ 2 }
    requires host { host ≤ 1 }
    requires items { length items.old ≡ 3 }
    requires news { length news.old ≡ 3 }
    requires resting { channels.old.flying ≡ no_members (length channels.old.specs) }
{
    let peer = 1 - host;
    if !has_one_list(memo, ListKind::ReduceTo, host, peer) {
        return false;
    }
    if !has_room(channels, Leg::Reduce, host, peer) {
        return false;
    }
    post_reduces::<AddU32>(memo, host, 2, items, news, channels);
    true
}

// Posts the masters of a host of two, or says that it cannot.
fn could_post_broadcasts(
    memo: &Memo,
    host: u16,
    shown: &[u32],
    changed: &UpdateBits,
    channels: &mut Channels,
) -> bool
    requires hosts { memo.now.hosts ≡ 2 }
    requires host { host ≤ 1 }
    requires shown { length shown.now ≡ 3 }
    requires changed { length changed.now ≡ 3 }
    requires resting { channels.old.flying ≡ no_members (length channels.old.specs) }
{
    let peer = 1 - host;
    if !has_one_list(memo, ListKind::SpreadTo, host, peer) {
        return false;
    }
    if !has_room(channels, Leg::Spread, host, peer) {
        return false;
    }
    post_broadcasts(memo, host, 2, shown, changed, channels);
    true
}

#[test]
fn mirrors_are_posted_and_set_back(rt: HostRuntime) -> Result<(), Fail> {
    let memo = Memo::open(rt.alloc(), &graph_of(rt.alloc(), 0)?, Way::Outward)?;
    let mut channels = channel(rt.alloc(), Leg::Reduce, 0, 1)?;
    let mut items = [9, 4, 6];
    let mut news = first_two(rt.alloc())?;
    assert!(rt; could_post_reduces(&memo, 0, &mut items, &mut news, &mut channels));
    assert_eq!(rt; channels.flying_count(), 1);
    assert_eq!(rt; channels.count(), 1);
    assert_eq!(rt; channels.payload(0), [1, 1, 4, 0, 0, 0].as_slice());
    assert_eq!(rt; items, [9, 0, 0]);
    assert_eq!(rt; (news.count(), news.next_from(0)), (1, Some(0)));
    Ok(())
}

#[test]
fn masters_are_posted(rt: HostRuntime) -> Result<(), Fail> {
    let graph = graph_of(rt.alloc(), 1)?;
    let told = memo_payload(rt.alloc(), &graph_of(rt.alloc(), 0)?, Way::Inward, 1)?;
    let mut memo = Memo::open(rt.alloc(), &graph, Way::Inward)?;
    memo.accept(0, read_memo(rt.alloc(), &graph, &told)?);
    let mut channels = channel(rt.alloc(), Leg::Spread, 1, 0)?;
    let changed = first_two(rt.alloc())?;
    assert!(rt; could_post_broadcasts(&memo, 1, &[4, 6, 8], &changed, &mut channels));
    assert_eq!(rt; channels.flying_count(), 1);
    assert_eq!(rt; channels.count(), 1);
    assert_eq!(rt; channels.payload(0), [0, 4, 0, 0, 0, 6, 0, 0, 0].as_slice());
    Ok(())
}
