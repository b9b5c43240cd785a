//! The local graphs of a partition.
//!
//! [`build_list`] makes one local graph a host of a list of edges: each edge stands on its owner alone, in
//! file order. [`build`] reads the list first, and [`build_for`] lays arcs for one way alone. All take time in
//! proportion to vertices, edges and hosts.
#![tactic(auto)]

mod alone;
mod assembly;
mod handing;
mod partition;

pub use partition::{build, build_for, build_list};

#[cfg(test)]
mod tests;
