//! Graphs that are divided among hosts: which arcs are on which host, which vertices have mirrors
//! there, and the pruned lists that two hosts exchange values along. The crate has definitions and
//! laws, and no call that does anything.
#![tactic(auto)]

mod laws;

pub use laws::{
    file_order_stays, graphs_have_arcs, hosts_see_themselves, lists_rise, mirrors_are_of_no_way,
    partitions_divide, written_is_reduced,
};
