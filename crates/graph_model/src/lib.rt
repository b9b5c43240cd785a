//! Graphs as lists of edges, and what is said of them: arcs, walks, least walks, cores and peeling.
#![tactic(auto)]

mod core_laws;
mod edge;
mod edge_list;
mod laws;

pub use core_laws::{
    core_exists, core_is_unique, core_order_is_free, last_peel_is_core, leaving_ends_at_last,
    peel_count_is_unique, peel_count_order_is_free, peeling_ends, peeling_falls,
    peeling_order_is_free, peeling_stays, still_peel_is_core,
};
pub use edge::{Edge, Way};
pub use edge_list::{EdgeList, MAX_EDGES, MAX_NODES};
pub use laws::{
    arcs_are_a_set, least_is_unique, least_is_within_nodes, least_order_is_free, levels_end,
    levels_grow, levels_step, limits_hold, walk_count_is_unique, walk_count_order_is_free,
    walks_cut, walks_end_by_arc, walks_join, walks_shorten,
};

#[cfg(test)]
mod tests;
