//! Shortest paths, components and trials by the top call. The expected texts were worked out from the definitions.
use gluon_top::gluon_main;
use io_edge::{MemorySink, MixedPicks, PlainSource, Source};
use std::alloc::{AllocError, Global};
use std::process::Abort;
use std::test::Fail;

/// The bytes of these numbers, of 8 bytes and then of 4, cut after `length` bytes.
fn file(alloc: Global, longs: &[u64], words: &[u32], length: usize) -> Result<Vec<u8>, AllocError> {
    let mut bytes = Vec::new(alloc);
    for long in longs {
        bytes.extend_from_slice(&long.to_le_bytes())?;
    }
    for word in words {
        bytes.extend_from_slice(&word.to_le_bytes())?;
    }
    bytes.truncate(length);
    Ok(bytes)
}

/// The call on these words and this source ends with this status and has written this text.
fn expect(
    rt: &impl Abort,
    alloc: Global,
    words: &[&str],
    source: &mut PlainSource,
    status: u8,
    text: &str,
) -> Result<(), AllocError> {
    let mut all = Vec::new(alloc);
    for word in words {
        all.push(String::from_str(alloc, word)?)?;
    }
    let mut sink = MemorySink::new(alloc, 1024, 1024, Vec::new(alloc))?;
    let mut picker = MixedPicks::new();
    let ended = gluon_main(alloc, &all, source, &mut sink, &mut picker).status;
    assert_eq!(rt; sink.held(), text.as_bytes());
    assert_eq!(rt; ended, status, "where {text} is written");
    Ok(())
}

/// 0 to 1 of weight 7, with padding that is not zero.
const ARC_LONGS: [u64; 6] = [1, 4, 2, 1, 1, 1];

const ARC_WORDS: [u32; 3] = [1, u32::MAX, 7];

#[test]
fn what_follows_a_file_is_left(rt: HostRuntime) -> Result<(), Fail> {
    let alloc = rt.alloc();
    let mut bytes = file(alloc, &ARC_LONGS, &ARC_WORDS, 60)?;
    bytes.extend_from_slice(&[0xaa, 0xbb, 0xcc])?;
    let mut source = PlainSource::new(bytes);
    expect(
        &rt,
        alloc,
        &["sssp", "--root", "0"],
        &mut source,
        0,
        "0 0\n1 7\n",
    )?;
    let mut rest = [0; 4];
    let read = source.read(&mut rest);
    assert_eq!(rt; (read, rest), (Ok(3), [0xaa, 0xbb, 0xcc, 0]));
    Ok(())
}

#[test]
fn a_file_without_weights_counts_arcs(rt: HostRuntime) -> Result<(), Fail> {
    let alloc = rt.alloc();
    let mut source = PlainSource::new(file(alloc, &[1, 0, 2, 1, 1, 1], &[1], 52)?);
    expect(
        &rt,
        alloc,
        &["sssp", "--root", "0"],
        &mut source,
        0,
        "0 0\n1 1\n",
    )?;
    let mut empty = PlainSource::new(file(alloc, &[1, 0, 0, 0], &[], 32)?);
    expect(&rt, alloc, &["cc"], &mut empty, 0, "")?;
    Ok(())
}

#[test]
fn a_cut_file_has_its_line(rt: HostRuntime) -> Result<(), Fail> {
    let alloc = rt.alloc();
    for (length, line) in [
        (0, "fault: input ends in head after 0 bytes\n"),
        (31, "fault: input ends in head after 31 bytes\n"),
        (47, "fault: input ends in index after 15 bytes\n"),
        (51, "fault: input ends in destinations after 3 bytes\n"),
        (55, "fault: input ends in padding after 3 bytes\n"),
        (59, "fault: input ends in weights after 3 bytes\n"),
    ] {
        let mut source = PlainSource::new(file(alloc, &ARC_LONGS, &ARC_WORDS, length)?);
        expect(&rt, alloc, &["sssp", "--root", "0"], &mut source, 3, line)?;
    }
    Ok(())
}

#[test]
fn a_damaged_file_has_its_line(rt: HostRuntime) -> Result<(), Fail> {
    let alloc = rt.alloc();
    let all: [(&[u64], &[u32], &str); 10] = [
        (&[1, 0, 2, 2, 2, 1], &[], "fault: index 1 falls\n"),
        (&[1, 0, 2, 2, 1, 1], &[], "fault: index ends at 1 of 2\n"),
        (&[1, 0, 2, 2, 5, 2], &[], "fault: index 1 falls\n"),
        (&[1, 0, 2, 2, 5, 5], &[], "fault: index ends at 5 of 2\n"),
        (&[1, 0, 0, 3], &[], "fault: index ends at 0 of 3\n"),
        (&[1, 0, 2, 2, 1, 2], &[1, 2], "fault: edge 1 goes to 2\n"),
        (&[2, 0, 2, 2], &[], "fault: version 2\n"),
        (&[1, 8, 2, 2], &[], "fault: edge size 8\n"),
        (&[1, 0, 16_777_217, 2], &[], "fault: nodes 16777217\n"),
        (&[1, 0, 2, 67_108_865], &[], "fault: edges 67108865\n"),
    ];
    for (longs, words, line) in all {
        let mut source = PlainSource::new(file(alloc, longs, words, 100)?);
        expect(&rt, alloc, &["cc"], &mut source, 3, line)?;
    }
    Ok(())
}

/// What the four programs find on the graph of 600 nodes that number 1 makes.
const TRIAL: &str = "nodes 600\n\
                     edges 2294\n\
                     bfs reached 600 sum 2308 greatest 7\n\
                     sssp reached 600 sum 76234 greatest 217\n\
                     cc labels 1\n\
                     core 8 members 0\n";

#[test]
fn a_trial_is_the_same_over_any_hosts(rt: HostRuntime) -> Result<(), Fail> {
    let alloc = rt.alloc();
    let all: [&[&str]; 6] = [
        &["selfrun", "--size", "600", "--order", "7"],
        &["selfrun", "--size=600", "--hosts=1"],
        &["selfrun", "--size=600", "--masters=nodes"],
        &["selfrun", "--size=600", "--hosts=7", "--owner=dest"],
        &[
            "selfrun",
            "--size=600",
            "--hosts=3",
            "--owner=hybrid",
            "--threshold=8",
        ],
        &["selfrun", "--size=600", "--hosts=16", "--owner=cartesian"],
    ];
    for words in all {
        let mut source = PlainSource::new(Vec::new(alloc));
        expect(&rt, alloc, words, &mut source, 0, TRIAL)?;
    }
    Ok(())
}

#[test]
fn a_trial_of_20000_nodes_has_its_lines(rt: HostRuntime) -> Result<(), Fail> {
    expect(
        &rt,
        rt.alloc(),
        &["selfrun", "--size", "20000", "--order", "7"],
        &mut PlainSource::new(Vec::new(rt.alloc())),
        0,
        "nodes 20000\n\
         edges 76250\n\
         bfs reached 20000 sum 125217 greatest 10\n\
         sssp reached 20000 sum 5320967 greatest 419\n\
         cc labels 1\n\
         core 8 members 0\n",
    )?;
    Ok(())
}
