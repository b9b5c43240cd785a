//! The three programs of labels: breadth-first search, shortest paths and components. In each a
//! vertex has a number, none at first but where walks start, and takes the least that comes along
//! its arcs. So a round follows one arc more of each walk, and the last round leaves the least over
//! all walks, however the graph is divided among hosts.
#![tactic(auto)]

mod bfs;
mod components;
mod laws;
mod run_laws;
mod sssp;

pub use bfs::Bfs;
pub use components::Components;
pub use laws::{
    counts_agree, labels_are_least, last_is_all_walks, last_labels_are_least, programs_fit,
    programs_have_labels, quiet_rounds, rounds_are_walks, rounds_end, sums_are_labels,
};
pub use run_laws::{
    labels_are_sent, labels_find_least, least_exist, programs_find_least, programs_send_least,
};
pub use sssp::Sssp;

#[cfg(test)]
mod tests;
