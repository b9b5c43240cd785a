//! Reads what another host told.
ghost use Rattle.std.specs.Prelude.{◌≡◌, ◌≢◌, ◌<◌, ◌≤◌, ◌*◌, ◌+◌, ◌/◌, ℕ, List, Some, length, take, drop, MatchResult, MatchOption, IfOk, IfErr, slice_get, None, true, false};
ghost use Rattle.list_laws.specs.Among.{is_among};
ghost use Rattle.list_laws.specs.LittleEndian.{whole_numbers};
ghost use Rattle.graph_division.specs.Shares.{masters_here, nodes_of};
ghost use Rattle.address_memo.specs.Memos.{AreMasters};
ghost use Rattle.address_memo.specs.Payload.{payload};
ghost use Rattle.address_memo.specs.Checks.{AreMasterIds, is_whole, reduce_count, spread_count, ids_fault, memo_fault};

use crate::memo_fault::MemoFault;
use crate::memo_lists::MemoLists;
use crate::number_text::number_at;
use crate::proxy_list::ProxyList;
use proxy_graph::LocalGraph;
use std::alloc::Global;

/// The local number of a vertex that has its master on this host.
fn master_of(graph: &LocalGraph, id: u32) -> Option<u32>
    ensures { MatchOption result (is_among (masters_here graph.now) id ≡ false) (λ lid. slice_get (masters_here graph.now) lid ≡ Some id) }
{
    let lid = graph.local(id)?;
    if lid < graph.masters() {
        Some(lid)
    } else {
        None
    }
}

/// The masters that the ids of a text name; their places are numbered from `first`.
fn read_list(
    alloc: Global,
    graph: &LocalGraph,
    first: u32,
    text: &[u8],
) -> Result<ProxyList, MemoFault>
    requires { first ≤ nodes_of graph.now }
    ensures list { IfOk result (AreMasters graph.now) }
    ensures ids { IfOk result (λ list. list.globals ≡ whole_numbers 4 text.now) }
    ensures few { IfOk result (λ list. length list.globals ≤ nodes_of graph.now) }
    ensures fault { IfErr result (λ fault. fault ≢ MemoFault.Memory → ids_fault (masters_here graph.now) first (whole_numbers 4 text.now) ≡ Some fault) }
{
    let _ = graph.nodes();
    let count = text.len() / 4;
    let mut locals = Vec::with_capacity(alloc, count)?;
    let mut globals = Vec::with_capacity(alloc, count)?;
    let mut low: u32 = 0;
    for i in 0..count {
        let id = number_at(text, i);
        if id < low {
            return Err(MemoFault::NotRising(first + i as u32));
        }
        let Some(lid) = master_of(graph, id) else {
            return Err(MemoFault::NotMine(id));
        };
        locals.push(lid)?;
        globals.push(id)?;
        low = id + 1;
    }
    Ok(ProxyList::new(locals, globals))
}

/// The length of the first list, where a payload has both lengths and as many ids as they say.
fn whole_count(bytes: &[u8]) -> Option<u32>
    ensures { MatchOption result (is_whole bytes.now ≡ false) (λ count. (is_whole bytes.now ≡ true) × (count ≡ reduce_count bytes.now)) }
{
    if bytes.len() < 8 {
        return None;
    }
    let count = number_at(bytes, 0);
    let others = number_at(bytes, 1);
    if bytes.len() as u64 != 8 + 4 * (count as u64 + others as u64) {
        return None;
    }
    Some(count)
}

/// The lists of a payload that came to this host, each vertex with its local number.
///
/// A payload is accepted exactly where it is that of two rising lists of masters of this host. Any other
/// is refused with the first check that it fails, and is not kept. Memory may run out at any payload.
pub fn read_memo(alloc: Global, graph: &LocalGraph, bytes: &[u8]) -> Result<MemoLists, MemoFault>
    // What is accepted is a payload, and these are its lists.
    ensures reduce { IfOk result (λ lists. AreMasters graph.now lists.reduce) }
    ensures spread { IfOk result (λ lists. AreMasters graph.now lists.spread) }
    ensures payload { IfOk result (λ lists. bytes.now ≡ payload lists.reduce.globals lists.spread.globals) }
    // Each payload of two rising lists of masters is accepted.
    ensures accepts { (reduce spread : List ℕ) → AreMasterIds graph.now reduce → AreMasterIds graph.now spread
        → bytes.now ≡ payload reduce spread → IfErr result (λ fault. fault ≡ MemoFault.Memory) }
    // A fault is the first check that fails.
    ensures fault { IfErr result (λ fault. fault ≢ MemoFault.Memory → memo_fault graph.now bytes.now ≡ Some fault) }
{
    let _ = graph.nodes();
    let Some(count) = whole_count(bytes) else {
        return Err(MemoFault::Length(bytes.len() as u64));
    };
    let (reduce_text, spread_text) = bytes[8..].split_at(count as usize * 4);
    let reduce = read_list(alloc, graph, 0, reduce_text)?;
    let spread = read_list(alloc, graph, count, spread_text)?;
    Ok(MemoLists { reduce, spread })
}
