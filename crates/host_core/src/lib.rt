//! One host of a run, event by event: it computes, takes reduce packets, spreads, takes broadcast packets,
//! and closes the round.
//!
//! [`Host::new`] takes all memory. In a round a host computes once ([`Host::compute`]): what its awake
//! proxies show goes along its arcs, and what its mirrors gathered is posted for their masters. Once it
//! has computed and taken all reduce packets that it expects, it spreads ([`Host::spread`]): its masters
//! settle, and what they show is posted for their mirrors elsewhere. Reduce packets are taken before the
//! host spreads ([`Host::take_reduce`]), broadcast packets whenever they come
//! ([`Host::take_broadcast`]). When all is done the next round begins ([`Host::close`]).
//!
//! A broadcast that comes early does no harm. It goes into what proxies show in the next round, which no
//! arc reads in this one; and where a mirror is also written here, its master waits for this host's reduce
//! packet before it broadcasts, so this host has computed by then.
//!
//! Each call says what it does to the host's own fields, for every payload that is well formed for its
//! list. And where the host serves a divided graph and stands for a moment of a round there, it says that
//! the host still does, and that what it posts are the packets of that round.
#![tactic(auto)]

mod host;
#[cfg(test)]
mod tests;

pub use host::Host;
