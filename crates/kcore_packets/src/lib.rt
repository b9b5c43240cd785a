//! k-core over hosts: its rounds are peeling on the whole graph, its packets are those that peeling
//! calls for, and its answers at last are the core. The crate has definitions and laws, and no call
//! that does anything.
#![tactic(auto)]

mod laws;

pub use laws::{kcore_finds_core, kcore_sends_tallies};

#[cfg(test)]
mod tests;
