//! Graphs by column, as they stand in a file: where the edges of each node start among all edges, and of each
//! edge its destination and its weight. An edge takes 8 bytes so, and a node 4.
#![tactic(auto)]

mod edge_columns;
mod sources;

pub use edge_columns::EdgeColumns;

#[cfg(test)]
mod tests;
