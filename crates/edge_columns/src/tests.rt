//! Graphs with edges and without, by column and back.
use crate::EdgeColumns;
use std::test::Fail;

// Three nodes. The first has an edge to itself and two to the last, the next has none, and the last has one.
#[test]
fn a_graph_has_its_columns(rt: HostRuntime) -> Result<(), Fail> {
    let starts = vec![in rt.alloc(); 0, 3, 3, 4]?;
    let destinations = vec![in rt.alloc(); 0, 2, 2, 1]?;
    let weights = vec![in rt.alloc(); 7, 1, 1, 4_294_967_295]?;
    let graph = EdgeColumns::from_parts(starts, destinations, weights);
    assert_eq!(rt; graph.nodes(), 3);
    assert_eq!(rt; graph.starts(), [0, 3, 3, 4].as_slice(), "in {graph:?}");
    assert_eq!(rt; graph.destinations(), [0, 2, 2, 1].as_slice());
    assert_eq!(rt; graph.weights(), [7, 1, 1, 4_294_967_295].as_slice());
    assert_eq!(rt;
        graph.sources(rt.alloc())?.as_slice(),
        [0, 0, 0, 2].as_slice()
    );
    let (starts, destinations, weights) = graph.into_parts();
    assert_eq!(rt; starts.as_slice(), [0, 3, 3, 4].as_slice());
    assert_eq!(rt; destinations.as_slice(), [0, 2, 2, 1].as_slice());
    assert_eq!(rt; weights.as_slice(), [7, 1, 1, 4_294_967_295].as_slice());
    Ok(())
}

#[test]
fn a_graph_may_have_no_node(rt: HostRuntime) -> Result<(), Fail> {
    let starts = vec![in rt.alloc(); 0]?;
    let graph = EdgeColumns::from_parts(starts, Vec::new(rt.alloc()), Vec::new(rt.alloc()));
    assert_eq!(rt; graph.nodes(), 0);
    assert_eq!(rt; graph.starts(), [0].as_slice());
    assert!(rt; graph.destinations().is_empty());
    assert!(rt; graph.weights().is_empty());
    assert!(rt; graph.sources(rt.alloc())?.is_empty());
    Ok(())
}

#[test]
fn nodes_may_have_no_edge(rt: HostRuntime) -> Result<(), Fail> {
    let starts = vec![in rt.alloc(); 0, 0, 0, 1, 1]?;
    let destinations = vec![in rt.alloc(); 3]?;
    let weights = vec![in rt.alloc(); 5]?;
    let graph = EdgeColumns::from_parts(starts, destinations, weights);
    assert_eq!(rt; graph.nodes(), 4);
    assert_eq!(rt; graph.sources(rt.alloc())?.as_slice(), [2].as_slice());
    Ok(())
}
