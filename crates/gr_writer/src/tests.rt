//! Two files byte by byte, and a write that fails in the middle.
ghost use Rattle.std.specs.Prelude.{◌≡◌, [], ◌∷◌, IfOk};

use super::*;
use gr_reader::read_graph;
use graph_model::{Edge, EdgeList};
use io_edge::{MemorySink, PlainSource, SinkFault};
use std::alloc::{AllocError, Global};
use std::test::Fail;

/// Two nodes, and an edge from 0 to 1 of weight 1.
fn one_edge(alloc: Global) -> Result<EdgeList, AllocError>
    ensures { IfOk result (λ list. list ≡ record { nodes = 2; edges = record { src = 0; dst = 1; weight = 1 } ∷ [] }) }
{
    let edge = Edge {
        src: 0,
        dst: 1,
        weight: 1,
    };
    let edges = vec![in alloc; edge]?;
    Ok(EdgeList::from_parts(2, edges))
}

/// Three edges with weights, of three nodes.
const WEIGHTED: [u8; 84] = [
    1, 0, 0, 0, 0, 0, 0, 0, 4, 0, 0, 0, 0, 0, 0, 0, 3, 0, 0, 0, 0, 0, 0, 0, 3, 0, 0, 0, 0, 0, 0, 0,
    2, 0, 0, 0, 0, 0, 0, 0, 2, 0, 0, 0, 0, 0, 0, 0, 3, 0, 0, 0, 0, 0, 0, 0, 1, 0, 0, 0, 2, 0, 0, 0,
    1, 0, 0, 0, 0, 0, 0, 0, 10, 0, 0, 0, 1, 0, 0, 0, 2, 0, 0, 0,
];

/// One edge with no weight, of two nodes.
const BARE: [u8; 56] = [
    1, 0, 0, 0, 0, 0, 0, 0, 0, 0, 0, 0, 0, 0, 0, 0, 2, 0, 0, 0, 0, 0, 0, 0, 1, 0, 0, 0, 0, 0, 0, 0,
    1, 0, 0, 0, 0, 0, 0, 0, 1, 0, 0, 0, 0, 0, 0, 0, 1, 0, 0, 0, 0, 0, 0, 0,
];

#[test]
fn weights_follow_destinations_and_padding(rt: HostRuntime) -> Result<(), Fail> {
    let mut source = PlainSource::new(Vec::from_slice(rt.alloc(), &WEIGHTED)?);
    let list = read_graph(rt.alloc(), &mut source)?;
    let edges = [(0, 1, 10), (0, 2, 1), (2, 1, 2)];
    assert_eq!(rt; list.edges().len(), edges.len());
    for (found, (src, dst, weight)) in list.edges().iter().zip(edges) {
        assert_eq!(rt; *found, Edge { src, dst, weight });
    }
    let mut sink = MemorySink::new(rt.alloc(), 100, 7, Vec::new(rt.alloc()))?;
    assert_eq!(rt; write_graph(&mut sink, &list, 4), Ok(()));
    assert_eq!(rt; sink.held(), WEIGHTED.as_slice());
    file_is_read_again();
    Ok(())
}

#[test]
fn padding_stands_without_weights_too(rt: HostRuntime) -> Result<(), Fail> {
    let list = one_edge(rt.alloc())?;
    let mut sink = MemorySink::new(rt.alloc(), 100, 100, Vec::new(rt.alloc()))?;
    assert_eq!(rt; write_graph(&mut sink, &list, 0), Ok(()));
    assert_eq!(rt; sink.held(), BARE.as_slice());
    Ok(())
}

#[test]
fn a_failed_write_leaves_a_front(rt: HostRuntime) -> Result<(), Fail> {
    let list = one_edge(rt.alloc())?;
    let mut sink = MemorySink::new(rt.alloc(), 100, 20, vec![in rt.alloc(); 1u64]?)?;
    assert_eq!(rt; write_graph(&mut sink, &list, 0), Err(SinkFault));
    assert_eq!(rt; sink.held(), &BARE[..20]);
    Ok(())
}
