//! Reads graphs from files of the Galois .gr format, version 1.
//!
//! All numbers of such a file are little-endian. It has a head of four numbers of 8 bytes: the version, the
//! bytes of data of each edge, the number of nodes and the number of edges. Then comes an index, with 8
//! bytes for each node: where its edges end. Then comes the destination of each edge, 4 bytes each. Where
//! edges have 4 bytes of data, the weights follow, behind 4 bytes of padding if the number of edges is odd.
//! Where they have none, each weight is 1.
//!
//! A file that is not so is refused with the first thing that is wrong, from its front.
//!
//! What follows the head is read into a list of edges, or by column, which takes less memory.
#![tactic(auto)]

mod columns;
mod destinations;
mod fault;
mod fill;
mod graph;
mod head;
mod index;
mod intake;
mod padding;
mod reader;
mod section;
mod stage;
#[cfg(test)]
mod tests;
mod weights;

pub use columns::read_columns;
pub use fault::GrFault;
pub use graph::{read_graph, read_rest};
pub use head::Head;
pub use reader::GrReader;
pub use section::Section;
pub use stage::Stage;
