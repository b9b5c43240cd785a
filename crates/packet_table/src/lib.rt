//! The channels between hosts: one buffer each, and which of them have a packet in flight.
//!
//! In a round a host sends packets on two legs: its mirrors' values to their masters ([`Leg::Reduce`])
//! and its masters' values to their mirrors ([`Leg::Spread`]). Each leg from one host to another is a
//! channel with a buffer of its own. [`Channels::new`] takes all memory; afterwards a sender writes into
//! [`Channels::buffer`] and calls [`Channels::post`], whoever delivers calls [`Channels::take`], and the
//! receiver reads [`Channels::payload`]. No later call takes memory.
//!
//! The buffers are one block of bytes, and what is in flight is a bit set, so to look for a packet in
//! flight costs words of channels.
#![tactic(auto)]

mod channel_spec;
mod channels;
mod layout;
mod search;
#[cfg(test)]
mod tests;

pub use channel_spec::{ChannelSpec, Leg};
pub use channels::Channels;
