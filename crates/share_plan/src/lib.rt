//! How a graph is shared out among hosts.
//!
//! A [`SharePlan`] is made once of a graph and [`Rules`](edge_owner::Rules), and then tells the master of
//! each vertex and the owner of each edge. What the hosts hold by it is a partition: every edge is with
//! its owner alone, in file order.
#![tactic(auto)]

mod laws;
mod plan;
mod starts;
mod table;

pub use laws::{
    arcs_are_shared, cartesian_has_no_both, dest_has_no_in, edges_have_owners, plans_tell_owners,
    shares_are_partition, source_has_no_out,
};
pub use plan::SharePlan;

#[cfg(test)]
mod tests;
