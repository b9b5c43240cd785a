//! The lists of proxies along which one host exchanges values with the others, and how a host tells
//! them to another.
//!
//! A mirror that is written on its host is reduced to its master's host, and one that is read there is
//! broadcast to it; no other mirror takes part. [`Memo::open`] finds a host's own mirrors of both kinds.
//! [`memo_payload`] tells another host those that have their masters there, as [`payload_of`] does where
//! their lists are at hand, and [`read_memo`] reads such a payload on that host: after [`Memo::accept`]
//! both hosts hold the same vertices in the same order, so a later packet names a place in a list and no
//! vertex.
//!
//! | bytes | of a payload from host a to host b |
//! |---|---|
//! | 4 | `n`, how many mirrors a reduces to b |
//! | 4 | `m`, how many mirrors b broadcasts to a |
//! | `4*n` | the vertices of the first, rising |
//! | `4*m` | the vertices of the second, rising |
//!
//! Numbers go low byte first. A payload that says anything else is refused with the [`MemoFault`] of the
//! first check that it fails. Lists come from [`read_memo`] and memos from [`Memo::open`] alone.
#![tactic(auto)]

mod laws;
mod leg;
mod memo;
mod memo_fault;
mod memo_lists;
mod number_text;
mod own_lists;
mod payload;
mod proxy_list;
mod reading;
mod told_lists;

pub use laws::memos_fit;
pub use memo::{ListKind, Memo};
pub use memo_fault::MemoFault;
pub use memo_lists::MemoLists;
pub use payload::{memo_payload, payload_of};
pub use proxy_list::ProxyList;
pub use reading::read_memo;

#[cfg(test)]
mod tests;
