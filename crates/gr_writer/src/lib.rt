//! Writes a graph as a .gr file of version 1, the format of the Galois system.
//!
//! The file has a head of four numbers of eight bytes: the version, the bytes of a weight, the number of
//! nodes and the number of edges. An index follows, with a number of eight bytes for each node: where its
//! range of edges ends. Then come the destinations, four zero bytes where the number of edges is odd, and,
//! where a weight has four bytes, the weights. The lowest byte of a number comes first.
#![tactic(auto)]

mod column;
mod index;
mod read_again;
#[cfg(test)]
mod tests;
mod write;

pub use read_again::file_is_read_again;
pub use write::write_graph;
