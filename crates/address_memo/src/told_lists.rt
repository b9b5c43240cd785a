//! The two lists that a peer told, as they are kept.
ghost use Rattle.std.specs.Prelude.{◌≡◌};
ghost use Rattle.address_memo.specs.Told.{untold};

use crate::proxy_list::ProxyList;
use std::alloc::Global;
use std::marker::Model;

/// The masters that a peer named. Lists that are equal, as they are where edges are followed both ways,
/// are kept once.
#[derive(Drop)]
pub(crate) struct ToldLists {
    reduce: ProxyList,
    // None is the list of `reduce`
    spread: Option<ProxyList>,
}

impl Model for ToldLists {
    ghost use Rattle.address_memo.specs.Told.{Told, kept_or};

    ghost Value = { Told };

    ghost view = { λ lists. record { reduce = lists.reduce; spread = kept_or lists.reduce lists.spread } };
}

impl ToldLists {
    /// These lists.
    pub(crate) fn new(reduce: ProxyList, spread: ProxyList) -> ToldLists
        ensures { result ≡ record { reduce = reduce; spread = spread } }
    {
        let are_same = reduce.locals() == spread.locals() && reduce.globals() == spread.globals();
        ToldLists {
            reduce,
            spread: if are_same { None } else { Some(spread) },
        }
    }

    /// Two lists without proxies. They take no memory.
    pub(crate) fn empty(alloc: Global) -> ToldLists
        ensures { result ≡ untold }
    {
        ToldLists {
            reduce: ProxyList::empty(alloc),
            spread: None,
        }
    }

    /// The masters to which the peer reduces.
    pub(crate) fn reduce(&self) -> &ProxyList
        ensures { result.now ≡ self.now.reduce }
    {
        &self.reduce
    }

    /// The masters that the peer wants to be told.
    pub(crate) fn spread(&self) -> &ProxyList
        ensures { result.now ≡ self.now.spread }
    {
        match &self.spread {
            Some(spread) => spread,
            None => &self.reduce,
        }
    }
}
