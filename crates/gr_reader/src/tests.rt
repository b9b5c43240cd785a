//! What no clause says: files whose meaning is known from outside.

use super::{GrFault, GrReader, Head, Section, Stage, read_columns, read_graph, read_rest};
use edge_columns::EdgeColumns;
use graph_model::Edge;
use io_edge::{MemorySource, PlainSource, Source};
use std::alloc::{AllocError, Global};
use std::test::Fail;

/// A file: the numbers of the head and the index, and then words of 4 bytes.
fn file_of(
    alloc: Global,
    head: [u64; 4],
    index: &[u64],
    words: &[u32],
) -> Result<Vec<u8>, AllocError> {
    let mut bytes = Vec::new(alloc);
    for number in &head {
        bytes.extend_from_slice(&number.to_le_bytes())?;
    }
    for entry in index {
        bytes.extend_from_slice(&entry.to_le_bytes())?;
    }
    for word in words {
        bytes.extend_from_slice(&word.to_le_bytes())?;
    }
    Ok(bytes)
}

/// Two nodes, an edge from 0 to 1 of weight 7, and padding that is not zero.
fn weighted_file(alloc: Global) -> Result<Vec<u8>, AllocError> {
    file_of(alloc, [1, 4, 2, 1], &[1, 1], &[1, 0xffff_ffff, 7])
}

#[test]
fn tells_the_first_fault(rt: HostRuntime) -> Result<(), Fail> {
    const MAX: u64 = u64::MAX;
    let cases: [([u64; 4], &[u64], &[u32], GrFault); 16] = [
        ([1, 0, 2, 2], &[2, 1], &[], GrFault::IndexFalls(1)),
        (
            [1, 0, 2, 2],
            &[1, 1],
            &[],
            GrFault::IndexEnds { got: 1, want: 2 },
        ),
        ([1, 0, 2, 2], &[5, 2], &[], GrFault::IndexFalls(1)),
        (
            [1, 0, 2, 2],
            &[5, 5],
            &[],
            GrFault::IndexEnds { got: 5, want: 2 },
        ),
        (
            [1, 0, 0, 3],
            &[],
            &[],
            GrFault::IndexEnds { got: 0, want: 3 },
        ),
        (
            [1, 0, 2, 2],
            &[1, 2],
            &[1, 2],
            GrFault::Destination { edge: 1, dst: 2 },
        ),
        ([2, 0, 2, 2], &[], &[], GrFault::Version(2)),
        ([1, 8, 2, 2], &[], &[], GrFault::EdgeSize(8)),
        ([1, 0, 16_777_217, 2], &[], &[], GrFault::Nodes(16_777_217)),
        ([1, 0, 2, 67_108_865], &[], &[], GrFault::Edges(67_108_865)),
        ([MAX, MAX, MAX, MAX], &[], &[], GrFault::Version(MAX)),
        ([1, MAX, 0, 0], &[], &[], GrFault::EdgeSize(MAX)),
        (
            [1, 0, 16_777_216, 67_108_864],
            &[],
            &[],
            GrFault::Ends {
                section: Section::Index,
                got: 0,
            },
        ),
        (
            [1, 0, 1, 0],
            &[1 << 63],
            &[],
            GrFault::IndexEnds {
                got: 1 << 63,
                want: 0,
            },
        ),
        ([1, 0, 2, 1], &[1 << 40, 1], &[], GrFault::IndexFalls(1)),
        (
            [1, 0, 1, 1],
            &[1],
            &[u32::MAX],
            GrFault::Destination {
                edge: 0,
                dst: u32::MAX,
            },
        ),
    ];
    for (head, index, words, want) in cases {
        let mut source = PlainSource::new(file_of(rt.alloc(), head, index, words)?);
        let fault = read_graph(rt.alloc(), &mut source).err();
        assert_eq!(rt; fault, Some(want));
    }
    Ok(())
}

#[test]
fn tells_where_the_input_ends(rt: HostRuntime) -> Result<(), Fail> {
    let cases = [
        (0, Section::Head, 0),
        (31, Section::Head, 31),
        (47, Section::Index, 15),
        (51, Section::Destinations, 3),
        (55, Section::Padding, 3),
        (59, Section::Weights, 3),
    ];
    for (length, section, got) in cases {
        let mut bytes = weighted_file(rt.alloc())?;
        bytes.truncate(length);
        let fault = read_graph(rt.alloc(), &mut PlainSource::new(bytes)).err();
        assert_eq!(rt; fault, Some(GrFault::Ends { section, got }));
    }
    Ok(())
}

#[test]
fn leaves_what_follows_the_weights(rt: HostRuntime) -> Result<(), Fail> {
    let mut bytes = weighted_file(rt.alloc())?;
    bytes.extend_from_slice(&[0xaa, 0xbb, 0xcc])?;
    let mut source = PlainSource::new(bytes);
    let graph = read_graph(rt.alloc(), &mut source)?;
    assert_eq!(rt; graph.nodes(), 2);
    let edge = Edge {
        src: 0,
        dst: 1,
        weight: 7,
    };
    assert_eq!(rt; graph.edges(), [edge].as_slice());
    let mut rest = [0u8; 8];
    assert_eq!(rt; source.read(&mut rest)?, 3);
    assert_eq!(rt; rest, [0xaa, 0xbb, 0xcc, 0, 0, 0, 0, 0]);
    Ok(())
}

#[test]
fn ends_behind_the_destinations_without_weights(rt: HostRuntime) -> Result<(), Fail> {
    let bytes = file_of(rt.alloc(), [1, 0, 2, 1], &[1, 1], &[1])?;
    let mut source = PlainSource::new(bytes);
    let mut reader = GrReader::new(rt.alloc())?;
    assert_eq!(rt; reader.stage(), Stage::Head);
    let head = reader.read_head(&mut source)?;
    assert_eq!(rt;
        head,
        Head {
            version: 1,
            edge_size: 0,
            nodes: 2,
            edges: 1
        }
    );
    assert_eq!(rt; reader.stage(), Stage::Index);
    let graph = read_rest(rt.alloc(), &mut reader, &mut source)?;
    let edge = Edge {
        src: 0,
        dst: 1,
        weight: 1,
    };
    assert_eq!(rt; graph.edges(), [edge].as_slice());
    assert_eq!(rt; reader.stage(), Stage::Done);
    Ok(())
}

/// A file whose sections are longer than one piece: 10,000 nodes, and 20,001 edges with weights.
fn long_file(alloc: Global) -> Result<Vec<u8>, AllocError> {
    let mut bytes = file_of(alloc, [1, 4, 10_000, 20_001], &[], &[])?;
    for node in 1..10_000u64 {
        bytes.extend_from_slice(&(2 * node).to_le_bytes())?;
    }
    bytes.extend_from_slice(&20_001u64.to_le_bytes())?;
    for edge in 0..20_001u32 {
        bytes.extend_from_slice(&(edge * 31 % 10_000).to_le_bytes())?;
    }
    bytes.extend_from_slice(&[1; 4])?;
    for edge in 0..20_001u32 {
        bytes.extend_from_slice(&edge.to_le_bytes())?;
    }
    Ok(bytes)
}

#[test]
fn reads_the_same_in_steps_of_any_length(rt: HostRuntime) -> Result<(), Fail> {
    for step in [1, 7, 65_536] {
        let bytes = long_file(rt.alloc())?;
        let mut source = MemorySource::new(bytes, step, Vec::new(rt.alloc()));
        let graph = read_graph(rt.alloc(), &mut source)?;
        assert_eq!(rt; graph.nodes(), 10_000);
        let edges = graph.edges();
        assert_eq!(rt; edges.len(), 20_001);
        for number in 0..20_001u32 {
            let edge = edges[number as usize];
            assert_eq!(rt; edge.src, (number / 2).min(9_999));
            assert_eq!(rt; edge.dst, number * 31 % 10_000);
            assert_eq!(rt; edge.weight, number);
        }
    }
    Ok(())
}

#[test]
fn passes_on_each_read_that_fails(rt: HostRuntime) -> Result<(), Fail> {
    // In steps of 7 the file takes five reads for the head, three for the index, and one for each other
    // section.
    for call in 0..12 {
        let mut fails = Vec::new(rt.alloc());
        fails.push(call)?;
        let mut source = MemorySource::new(weighted_file(rt.alloc())?, 7, fails);
        let fault = read_graph(rt.alloc(), &mut source).err();
        let want = if call < 11 { Some(GrFault::Read) } else { None };
        assert_eq!(rt; fault, want);
    }
    Ok(())
}

#[test]
fn has_failed_behind_a_fault(rt: HostRuntime) -> Result<(), Fail> {
    let bytes = file_of(rt.alloc(), [1, 0, 2, 2], &[2, 1], &[])?;
    let mut source = PlainSource::new(bytes);
    let mut reader = GrReader::new(rt.alloc())?;
    let _head = reader.read_head(&mut source)?;
    assert_eq!(rt;
        read_rest(rt.alloc(), &mut reader, &mut source).err(),
        Some(GrFault::IndexFalls(1))
    );
    assert_eq!(rt; reader.stage(), Stage::Failed);
    Ok(())
}

/// The graph of a file, by column.
fn read_by_column<S: Source>(alloc: Global, source: &mut S) -> Result<EdgeColumns, GrFault> {
    let mut reader = GrReader::new(alloc)?;
    reader.read_head(source)?;
    read_columns(alloc, &mut reader, source)
}

#[test]
fn reads_the_same_graph_by_column(rt: HostRuntime) -> Result<(), Fail> {
    // Edges from 0 to 1 and 2, none from 1, and one from 2 to 0.
    let cases: [(u64, &[u32], [u32; 3]); 2] = [
        (0, &[1, 2, 0], [1, 1, 1]),
        (4, &[1, 2, 0, 0xffff_ffff, 7, 0, u32::MAX], [7, 0, u32::MAX]),
    ];
    for (edge_size, words, weights) in cases {
        let bytes = file_of(rt.alloc(), [1, edge_size, 3, 3], &[2, 2, 3], words)?;
        let columns = read_by_column(rt.alloc(), &mut PlainSource::new(bytes.clone()?))?;
        assert_eq!(rt; columns.nodes(), 3);
        assert_eq!(rt; columns.starts(), [0, 2, 2, 3].as_slice());
        assert_eq!(rt; columns.destinations(), [1, 2, 0].as_slice());
        assert_eq!(rt; columns.weights(), weights.as_slice());
        let [first, second, third] = weights;
        let edges = [(0, 1, first), (0, 2, second), (2, 0, third)].map(|(src, dst, weight)| Edge {
            src,
            dst,
            weight,
        });
        let graph = read_graph(rt.alloc(), &mut PlainSource::new(bytes))?;
        assert_eq!(rt; graph.edges(), edges.as_slice());
    }
    Ok(())
}

#[test]
fn tells_the_same_fault_of_a_cut_file_by_column(rt: HostRuntime) -> Result<(), Fail> {
    for length in 0..60 {
        let mut bytes = weighted_file(rt.alloc())?;
        bytes.truncate(length);
        let want = read_graph(rt.alloc(), &mut PlainSource::new(bytes.clone()?)).err();
        let fault = read_by_column(rt.alloc(), &mut PlainSource::new(bytes)).err();
        assert!(rt; fault.is_some());
        assert_eq!(rt; fault, want);
    }
    Ok(())
}

#[test]
fn passes_on_each_read_that_fails_by_column(rt: HostRuntime) -> Result<(), Fail> {
    for call in 0..12 {
        let mut fails = Vec::new(rt.alloc());
        fails.push(call)?;
        let mut source = MemorySource::new(weighted_file(rt.alloc())?, 7, fails);
        let fault = read_by_column(rt.alloc(), &mut source).err();
        let want = if call < 11 { Some(GrFault::Read) } else { None };
        assert_eq!(rt; fault, want);
    }
    Ok(())
}
