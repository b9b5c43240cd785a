//! Opens memos and posts what hosts have to tell.
ghost use Rattle.std.specs.Prelude.{◌≡◌, ◌<◌, ◌++◌, map, IfOk, OnOk};
ghost use Rattle.std.specs.List.{flat_map};
ghost use Rattle.graph_division.specs.Shares.{seen};
ghost use Rattle.address_memo.specs.Memos.{opened};
ghost use Rattle.memo_exchange.specs.Asks.{has_news};
ghost use Rattle.memo_exchange.specs.Letters.{letters_of};

use crate::letter::Letter;
use address_memo::{ListKind, Memo, payload_of};
use graph_model::Way;
use proxy_graph::LocalGraph;
use std::alloc::{AllocError, Global};

/// Whether a host has something to tell a peer.
fn tells(graph: &LocalGraph, way: Way, memo: &Memo, peer: u16) -> bool
    requires memo { memo.now ≡ opened way graph.now }
    requires peer { peer < graph.now.hosts }
    ensures { result ≡ has_news (seen way graph.now) graph.now.host peer }
{
    !memo.list(ListKind::ReduceTo, peer).globals().is_empty()
        || !memo.list(ListKind::SpreadFrom, peer).globals().is_empty()
}

/// Posts what a host has to tell, by rising receiver.
fn post_from(
    alloc: Global,
    graph: &LocalGraph,
    way: Way,
    memo: &Memo,
    mail: &mut Vec<Letter>,
) -> Result<(), AllocError>
    requires { memo.now ≡ opened way graph.now }
    ensures { OnOk result (mail.new.items ≡ mail.old.items ++ letters_of way graph.now) }
{
    let host = graph.host();
    for to in 0..graph.hosts() {
        if tells(graph, way, memo, to) {
            let reduce = memo.list(ListKind::ReduceTo, to).globals();
            let spread = memo.list(ListKind::SpreadFrom, to).globals();
            let bytes = payload_of(alloc, reduce, spread)?;
            mail.push(Letter::new(host, to, bytes))?;
        }
    }
    Ok(())
}

/// The memo of each host with its own lists; what the hosts have to tell is posted, by rising sender.
pub(crate) fn open_all(
    alloc: Global,
    graphs: &[LocalGraph],
    way: Way,
    mail: &mut Vec<Letter>,
) -> Result<Vec<Memo>, AllocError>
    ensures memos { IfOk result (λ memos. memos.items ≡ map (opened way) graphs.now) }
    ensures mail { OnOk result (mail.new.items ≡ mail.old.items ++ flat_map (letters_of way) graphs.now) }
{
    let mut memos = Vec::with_capacity(alloc, graphs.len())?;
    for graph in graphs {
        let memo = Memo::open(alloc, graph, way)?;
        post_from(alloc, graph, way, &memo, mail)?;
        memos.push(memo)?;
    }
    Ok(memos)
}
