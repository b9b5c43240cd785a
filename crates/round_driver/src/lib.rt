//! All hosts of a run, and the round in which they exchange packets.
//!
//! [`Cluster::new`] takes all memory: the hosts, and a channel with room for the longest packet for each
//! list that is not empty. [`run_round`] then runs one round: as long as an event may come, a picker picks
//! the next one among those that may. These are, in this order: a host that has not computed computes, by
//! rising host; a host that has computed and has all its reduce packets spreads, by rising host; a packet
//! in flight is delivered, by rising channel. Whatever is picked, each round has two events for each host
//! and one for each packet, ends, and takes the cluster from one moment of the program's rounds on the
//! whole graph to the next.
#![tactic(auto)]

mod channel_specs;
mod choosing;
mod closing;
mod cluster;
mod events;
mod hosting;
mod tally;
#[cfg(test)]
mod tests;
mod turn;

pub use cluster::Cluster;
pub use tally::Tally;
pub use turn::run_round;
