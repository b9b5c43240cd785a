//! The two lists of a payload.
use crate::proxy_list::ProxyList;

/// The masters that a peer named.
#[derive(Drop)]
pub struct MemoLists {
    /// Those to which the peer reduces.
    pub reduce: ProxyList,
    /// Those that the peer wants to be told.
    pub spread: ProxyList,
}
