//! Each call once.
use crate::{
    Edge, EdgeList, Way, arcs_are_a_set, core_exists, core_is_unique, core_order_is_free,
    last_peel_is_core, least_is_unique, least_is_within_nodes, least_order_is_free,
    leaving_ends_at_last, levels_end, levels_grow, levels_step, limits_hold, peel_count_is_unique,
    peel_count_order_is_free, peeling_ends, peeling_falls, peeling_order_is_free, peeling_stays,
    still_peel_is_core, walk_count_is_unique, walk_count_order_is_free, walks_cut,
    walks_end_by_arc, walks_join, walks_shorten,
};
use std::test::Fail;

#[test]
fn a_list_keeps_its_nodes_and_edges(rt: HostRuntime) -> Result<(), Fail> {
    let there = Edge {
        src: 0,
        dst: 1,
        weight: 5,
    };
    let edges = vec![in rt.alloc(); there]?;
    let list = EdgeList::from_parts(2, edges);
    assert_eq!(rt; list.nodes(), 2);
    assert_eq!(rt; list.edges(), [there].as_slice(), "in {list:?}");
    assert_eq!(rt; list.into_edges().as_slice(), [there].as_slice());
    Ok(())
}

#[test]
fn ways_differ(rt: HostRuntime) {
    assert_ne!(rt; Way::Outward, Way::Inward);
    assert_ne!(rt; Way::Inward, Way::Both);
}

#[test]
fn laws_return() {
    limits_hold();
    walks_join();
    walks_cut();
    walks_end_by_arc();
    levels_step();
    levels_grow();
    levels_end();
    least_is_unique();
    walks_shorten();
    least_is_within_nodes();
    arcs_are_a_set();
    least_order_is_free();
    walk_count_order_is_free();
    walk_count_is_unique();
    peeling_falls();
    peeling_stays();
    still_peel_is_core();
    peeling_ends();
    last_peel_is_core();
    leaving_ends_at_last();
    core_exists();
    core_is_unique();
    peel_count_is_unique();
    peeling_order_is_free();
    peel_count_order_is_free();
    core_order_is_free();
}
