//! Which host owns each edge.
//!
//! An edge goes to a host by an [`OwnerRule`], told by the masters of its two ends: [`owner`]. By the
//! grid an owner lies in the row of the source's master and in the column of the destination's.
#![tactic(auto)]

mod edge_owner;
mod host_grid;
mod laws;
mod owner_rule;
mod rules;

pub use edge_owner::owner;
pub use host_grid::grid;
pub use laws::{both_ways_is_master, owners_are_hosts, owners_cross};
pub use owner_rule::OwnerRule;
pub use rules::Rules;

#[cfg(test)]
mod tests;
