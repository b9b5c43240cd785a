//! The exchange after which all hosts hold agreed lists.
//!
//! Before the first round each host tells every other which of its mirrors it reduces to it, and which
//! it wants to be told, where there are any: one payload for each such pair of hosts. [`exchange`] posts
//! them all, by sender and then by receiver, and delivers them in an order that a picker names, one pick
//! each. Whatever the order, both ends of every link then hold the same vertices in the same order, those
//! of the pruned lists. What a host learns of another comes from the bytes of a payload alone.
#![tactic(auto)]

mod delivery;
mod exchanging;
mod letter;
mod posting;

pub use exchanging::exchange;

#[cfg(test)]
mod tests;
