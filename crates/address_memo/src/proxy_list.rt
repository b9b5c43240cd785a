//! A list of proxies that two hosts share.
ghost use Rattle.std.specs.Prelude.{◌≡◌, ℕ, ◌+◌, [], List};
ghost use Rattle.address_memo.specs.Memos.{Proxies, AreProxies, none};

use std::alloc::Global;
use std::marker::Model;

/// The proxies of a host that are exchanged with another host: their local numbers and their vertices,
/// in one order, both rising.
#[derive(Drop)]
pub struct ProxyList {
    locals: Vec<u32>,
    globals: Vec<u32>,
}

impl Model for ProxyList {
    ghost Value = { Proxies };

    ghost view = { λ list. record { locals = list.locals.items; globals = list.globals.items } };

    ghost invariant = { λ list. AreProxies (record { locals = list.locals.items; globals = list.globals.items }) };
}

impl ProxyList {
    /// The list of these proxies.
    pub(crate) fn new(locals: Vec<u32>, globals: Vec<u32>) -> ProxyList
        requires { AreProxies (record { locals = locals.items; globals = globals.items }) }
        ensures { result ≡ record { locals = locals.items; globals = globals.items } }
    {
        ProxyList { locals, globals }
    }

    /// The list without proxies. It takes no memory.
    pub(crate) fn empty(alloc: Global) -> ProxyList
        ensures { result ≡ none }
    {
        ProxyList {
            locals: Vec::new(alloc),
            globals: Vec::new(alloc),
        }
    }

    /// The local numbers of the proxies.
    pub fn locals(&self) -> &[u32]
        ensures locals { result.now ≡ self.now.locals }
        ensures facts { AreProxies self.now }
    {
        &self.locals
    }

    /// The vertices of the proxies.
    pub fn globals(&self) -> &[u32]
        ensures globals { result.now ≡ self.now.globals }
        ensures facts { AreProxies self.now }
    {
        &self.globals
    }
}
