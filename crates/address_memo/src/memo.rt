//! One host's lists.
ghost use Rattle.std.specs.Prelude.{◌≡◌, ℕ, ◌+◌, ◌<◌, [], length, replicate, false, IfOk};
ghost use Rattle.list_laws.specs.Members.{has_member};
ghost use Rattle.address_memo.specs.Memos.{Memos, AreMemos, opened, with_accepted};
ghost use Rattle.address_memo.specs.Told.{untold};
ghost use Rattle.address_memo.specs.Kinds.{list_for};

use crate::leg::Leg;
use crate::memo_lists::MemoLists;
use crate::own_lists::own_lists;
use crate::proxy_list::ProxyList;
use crate::told_lists::ToldLists;
use graph_model::Way;
use proxy_graph::LocalGraph;
use std::alloc::{AllocError, Global};
use std::marker::Model;

/// Which of a host's lists with a peer.
#[derive(Clone, Copy, Debug, PartialEq, Eq)]
pub enum ListKind {
    /// The mirrors that the host reduces to the peer.
    ReduceTo,
    /// The masters to which the peer reduces.
    ReduceFrom,
    /// The masters that the host broadcasts to the peer.
    SpreadTo,
    /// The mirrors that the peer broadcasts to the host.
    SpreadFrom,
}

/// One host's lists, with each other host. Its own lists are there from the start; those that others
/// tell are empty until they are accepted. Lists that are equal are kept once.
#[derive(Drop)]
pub struct Memo {
    host: u16,
    // each by the number of the peer
    reduce_to: Vec<ProxyList>,
    // None where edges are followed both ways: mirrors are then written and read alike, and these lists
    // are those of `reduce_to`
    spread_from: Option<Vec<ProxyList>>,
    told: Vec<ToldLists>,
    // from whom lists are accepted
    accepted: Vec<bool>,
}

impl Model for Memo {
    ghost use Rattle.address_memo.specs.Memos.{Memos};

    ghost Value = { Memos };

    ghost use Rattle.address_memo.specs.MemoFields.{memos_of, AreMemoFields};

    ghost view = { memos_of };

    ghost invariant = { AreMemoFields };
}

/// Two empty lists for each host.
fn empty_lists(alloc: Global, hosts: u16) -> Result<Vec<ToldLists>, AllocError>
    ensures { IfOk result (λ lists. lists.items ≡ replicate hosts untold) }
{
    let mut lists = Vec::with_capacity(alloc, hosts as usize)?;
    for _ in 0..hosts {
        lists.push(ToldLists::empty(alloc))?;
    }
    Ok(lists)
}

impl Memo {
    /// The memo of this graph's host with its own lists, where edges are followed in this way. Nothing is
    /// accepted in it.
    pub fn open(alloc: Global, graph: &LocalGraph, way: Way) -> Result<Memo, AllocError>
        ensures { IfOk result (λ memo. memo ≡ opened way graph.now) }
    {
        let hosts = graph.hosts();
        let reduce_to = own_lists(alloc, graph, way, Leg::Reduce)?;
        let spread_from = match way {
            Way::Both => None,
            Way::Outward | Way::Inward => Some(own_lists(alloc, graph, way, Leg::Spread)?),
        };
        let told = empty_lists(alloc, hosts)?;
        let accepted = vec![in alloc; false; hosts as usize]?;
        Ok(Memo {
            host: graph.host(),
            reduce_to,
            spread_from,
            told,
            accepted,
        })
    }

    /// The list of this kind with a peer, which is below the number of hosts.
    pub fn list(&self, kind: ListKind, peer: u16) -> &ProxyList
        requires { peer < self.now.hosts }
        ensures list { result.now ≡ list_for self.now kind peer }
        ensures facts { AreMemos self.now }
    {
        match kind {
            ListKind::ReduceTo => &self.reduce_to[peer as usize],
            ListKind::ReduceFrom => self.told[peer as usize].reduce(),
            ListKind::SpreadTo => self.told[peer as usize].spread(),
            ListKind::SpreadFrom => match &self.spread_from {
                Some(lists) => &lists[peer as usize],
                None => &self.reduce_to[peer as usize],
            },
        }
    }

    /// Takes over the lists that a peer told, which is below the number of hosts and from which nothing
    /// was accepted before.
    pub fn accept(&mut self, from: u16, lists: MemoLists)
        requires peer { from < self.old.hosts }
        requires first { has_member self.old.accepted from ≡ false }
        ensures { self.new ≡ with_accepted self.old from lists.reduce lists.spread }
    {
        let place = from as usize;
        let MemoLists { reduce, spread } = lists;
        self.told[place] = ToldLists::new(reduce, spread);
        self.accepted[place] = true;
    }
}
