//! What one host tells another.
ghost use Rattle.std.specs.Prelude.{◌≡◌, ◌<◌, ◌^◌, IfOk, length};
ghost use Rattle.address_memo.specs.Memos.{own_reduce, own_spread};
ghost use Rattle.address_memo.specs.Payload.{payload};

use crate::leg::Leg;
use crate::number_text::{push_number, push_numbers};
use crate::own_lists::own_list;
use graph_model::Way;
use proxy_graph::LocalGraph;
use std::alloc::{AllocError, Global};

/// The payload of these vertices: those whose mirrors a host reduces to a peer, and those that the peer
/// broadcasts to it.
pub fn payload_of(alloc: Global, reduce: &[u32], spread: &[u32]) -> Result<Vec<u8>, AllocError>
    requires reduce { length reduce.now < 2 ^ 32 }
    requires spread { length spread.now < 2 ^ 32 }
    ensures { IfOk result (λ bytes. bytes.items ≡ payload reduce.now spread.now) }
{
    let mut bytes = Vec::with_capacity(alloc, 8 + 4 * (reduce.len() + spread.len()))?;
    push_number(&mut bytes, reduce.len() as u32)?;
    push_number(&mut bytes, spread.len() as u32)?;
    push_numbers(&mut bytes, reduce)?;
    push_numbers(&mut bytes, spread)?;
    Ok(bytes)
}

/// The payload for a peer, which is below the number of hosts: the vertices whose mirrors this host
/// reduces to the peer, and those that the peer broadcasts to it.
pub fn memo_payload(
    alloc: Global,
    graph: &LocalGraph,
    way: Way,
    to: u16,
) -> Result<Vec<u8>, AllocError>
    requires { to < graph.now.hosts }
    ensures { IfOk result (λ bytes. bytes.items ≡ payload (own_reduce way graph.now to) (own_spread way graph.now to)) }
{
    let _ = graph.nodes();
    let reduce = own_list(alloc, graph, way, Leg::Reduce, to)?;
    let spread = own_list(alloc, graph, way, Leg::Spread, to)?;
    payload_of(alloc, reduce.globals(), spread.globals())
}
