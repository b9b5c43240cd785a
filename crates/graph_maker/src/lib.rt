//! Graphs that are made from a size and a number, and summaries of the answers that a graph gives.
#![tactic(auto)]

mod made_graph;
mod summary;
#[cfg(test)]
mod tests;

pub use made_graph::make;
pub use summary::Summary;
