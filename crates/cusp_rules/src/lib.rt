//! Which host is the master of each vertex.
//!
//! The vertices, in order, are cut into one block a host by a [`MasterRule`], and [`Masters`] tells
//! them apart. Its contracts see it as the number of hosts and the list of each vertex's master.
#![tactic(auto)]

mod bounds;
mod laws;
mod master_rule;
mod masters;

pub use laws::rules_assign;
pub use master_rule::MasterRule;
pub use masters::Masters;

#[cfg(test)]
mod tests;
