use crate::gluon_main;
use io_edge::{FirstPicks, MemorySink, MemorySource, Picker, PlainSource, Sink, Source};
use std::alloc::{AllocError, Global};
use std::process::Abort;
use std::test::Fail;

/// The diamond: 0 to 1, 0 to 2, 1 to 3, 2 to 3.
pub(crate) const DIAMOND_LONGS: [u64; 8] = [1, 0, 4, 4, 2, 3, 4, 4];

pub(crate) const DIAMOND_WORDS: [u32; 4] = [1, 2, 3, 3];

/// The bytes of these numbers, of 8 bytes and then of 4, cut after `length` bytes.
pub(crate) fn file(
    alloc: Global,
    longs: &[u64],
    words: &[u32],
    length: usize,
) -> Result<Vec<u8>, AllocError> {
    let mut bytes = Vec::new(alloc);
    for long in longs {
        bytes.extend_from_slice(&long.to_le_bytes())?;
    }
    for word in words {
        bytes.extend_from_slice(&word.to_le_bytes())?;
    }
    bytes.truncate(length);
    Ok(bytes)
}

/// These words as strings.
pub(crate) fn owned(alloc: Global, words: &[&str]) -> Result<Vec<String>, AllocError> {
    let mut all = Vec::new(alloc);
    for word in words {
        all.push(String::from_str(alloc, word)?)?;
    }
    Ok(all)
}

/// The status of the call, whose cluster, if it hands one back, is dropped.
pub(crate) fn status_of_call<S: Source, K: Sink, P: Picker>(
    alloc: Global,
    words: &[String],
    source: &mut S,
    sink: &mut K,
    picker: &mut P,
) -> u8 {
    gluon_main(alloc, words, source, sink, picker).status
}

/// The call on these words and bytes ends with this status and has written this text.
pub(crate) fn expect_run(
    rt: &impl Abort,
    alloc: Global,
    words: &[&str],
    bytes: Vec<u8>,
    status: u8,
    text: &str,
) -> Result<(), AllocError> {
    let words = owned(alloc, words)?;
    let mut source = PlainSource::new(bytes);
    let mut sink = MemorySink::new(alloc, 1024, 1024, Vec::new(alloc))?;
    let ended = status_of_call(alloc, &words, &mut source, &mut sink, &mut FirstPicks);
    assert_eq!(rt; sink.held(), text.as_bytes());
    assert_eq!(rt; ended, status, "where {text} is written");
    Ok(())
}

#[test]
fn distances_are_written(rt: HostRuntime) -> Result<(), Fail> {
    let alloc = rt.alloc();
    let search = ["bfs", "--root", "0"];
    let diamond = file(alloc, &DIAMOND_LONGS, &DIAMOND_WORDS, 80)?;
    expect_run(&rt, alloc, &search, diamond, 0, "0 0\n1 1\n2 1\n3 2\n")?;
    let weighted = file(alloc, &[1, 4, 2, 1, 1, 1], &[1, u32::MAX, 7], 60)?;
    expect_run(&rt, alloc, &search, weighted, 0, "0 0\n1 1\n")?;
    let unweighted = file(alloc, &[1, 0, 2, 1, 1, 1], &[1], 52)?;
    expect_run(&rt, alloc, &search, unweighted, 0, "0 0\n1 1\n")?;
    let apart = file(alloc, &[1, 0, 3, 1, 0, 0, 1], &[1], 60)?;
    expect_run(
        &rt,
        alloc,
        &["bfs", "--root", "002"],
        apart,
        0,
        "0 -\n1 1\n2 0\n",
    )?;
    Ok(())
}

#[test]
fn each_fault_of_the_input_has_its_line(rt: HostRuntime) -> Result<(), Fail> {
    let alloc = rt.alloc();
    let weighted: (&[u64], &[u32]) = (&[1, 4, 2, 1, 1, 1], &[1, u32::MAX, 7]);
    for (longs, words, length, line) in [
        (
            weighted.0,
            weighted.1,
            0,
            "fault: input ends in head after 0 bytes\n",
        ),
        (
            weighted.0,
            weighted.1,
            31,
            "fault: input ends in head after 31 bytes\n",
        ),
        (
            weighted.0,
            weighted.1,
            47,
            "fault: input ends in index after 15 bytes\n",
        ),
        (
            weighted.0,
            weighted.1,
            51,
            "fault: input ends in destinations after 3 bytes\n",
        ),
        (
            weighted.0,
            weighted.1,
            55,
            "fault: input ends in padding after 3 bytes\n",
        ),
        (
            weighted.0,
            weighted.1,
            59,
            "fault: input ends in weights after 3 bytes\n",
        ),
        (
            &DIAMOND_LONGS,
            &DIAMOND_WORDS,
            79,
            "fault: input ends in destinations after 15 bytes\n",
        ),
        (&[1, 0, 2, 2, 2, 1], &[], 100, "fault: index 1 falls\n"),
        (
            &[1, 0, 2, 2, 1, 1],
            &[],
            100,
            "fault: index ends at 1 of 2\n",
        ),
        (&[1, 0, 2, 2, 5, 2], &[], 100, "fault: index 1 falls\n"),
        (
            &[1, 0, 2, 2, 5, 5],
            &[],
            100,
            "fault: index ends at 5 of 2\n",
        ),
        (
            &[1, 0, 2, 2, 1, 2],
            &[1, 2],
            100,
            "fault: edge 1 goes to 2\n",
        ),
        (&[2, 0, 2, 2], &[], 100, "fault: version 2\n"),
        (&[1, 8, 2, 2], &[], 100, "fault: edge size 8\n"),
        (&[1, 0, 16_777_217, 2], &[], 100, "fault: nodes 16777217\n"),
        (&[1, 0, 2, 67_108_865], &[], 100, "fault: edges 67108865\n"),
        (&[1, 0, 0, 0], &[], 100, "fault: root 0 of 0\n"),
        (
            &[u64::MAX; 4],
            &[],
            100,
            "fault: version 18446744073709551615\n",
        ),
        (
            &[1, u64::MAX, 0, 0],
            &[],
            100,
            "fault: edge size 18446744073709551615\n",
        ),
        (
            &[1, 0, 16_777_216, 67_108_864],
            &[],
            100,
            "fault: input ends in index after 0 bytes\n",
        ),
        (
            &[1, 0, 1, 0, 1 << 63],
            &[],
            100,
            "fault: index ends at 9223372036854775808 of 0\n",
        ),
        (
            &[1, 0, 2, 1, 1 << 40, 1],
            &[],
            100,
            "fault: index 1 falls\n",
        ),
        (
            &[1, 0, 1, 1, 1],
            &[u32::MAX],
            100,
            "fault: edge 0 goes to 4294967295\n",
        ),
    ] {
        let bytes = file(alloc, longs, words, length)?;
        expect_run(&rt, alloc, &["bfs", "--root", "0"], bytes, 3, line)?;
    }
    let falling = file(alloc, &[1, 0, 2, 2, 2, 1], &[], 100)?;
    expect_run(
        &rt,
        alloc,
        &["bfs", "--root", "5"],
        falling,
        3,
        "fault: root 5 of 2\n",
    )?;
    Ok(())
}

#[test]
fn words_come_in_any_order_and_defaults_may_be_said(rt: HostRuntime) -> Result<(), Fail> {
    let alloc = rt.alloc();
    let all: [&[&str]; 4] = [
        &["--root=007", "bfs"],
        &["bfs", "--root", "7", "--hosts", "4", "--way", "out"],
        &["--order=0", "--root", "7", "--owner=source", "--", "bfs"],
        &["bfs", "--threshold", "5", "--masters=edges", "--root=7"],
    ];
    for words in all {
        let ring = file(alloc, &[1, 0, 8, 1, 0, 0, 0, 0, 0, 0, 0, 1], &[2], 100)?;
        let text = "0 -\n1 -\n2 1\n3 -\n4 -\n5 -\n6 -\n7 0\n";
        expect_run(&rt, alloc, words, ring, 0, text)?;
    }
    Ok(())
}

#[test]
fn words_that_name_no_job_are_refused(rt: HostRuntime) -> Result<(), Fail> {
    let alloc = rt.alloc();
    let all: [&[&str]; 18] = [
        &[],
        &["bfs"],
        &["bfs", "--root"],
        &["bfs", "--root", "0", "--root", "1"],
        &["bfs", "--root", "+1"],
        &["bfs", "--root", "-1"],
        &["bfs", "--root", ""],
        &["bfs", "--root", "4294967296"],
        &["bfs", "--root", "000000000000000000000"],
        &["bfs", "--root", "0", "--root"],
        &["walk", "--root", "0"],
        &["make"],
        &["make", "--size", "1000001"],
        &["cc", "cc"],
        &["cc", "--hosts", "0"],
        &["cc", "--hosts", "65"],
        &["cc", "--trace=yes"],
        &["kcore", "--k", "3", "--root", "0"],
    ];
    for words in all {
        let diamond = file(alloc, &DIAMOND_LONGS, &DIAMOND_WORDS, 80)?;
        expect_run(&rt, alloc, words, diamond, 2, "fault: words\n")?;
    }
    Ok(())
}

#[test]
fn a_made_graph_is_a_file_that_is_read_again(rt: HostRuntime) -> Result<(), Fail> {
    let alloc = rt.alloc();
    let make = owned(alloc, &["make", "--size", "1", "--number=9"])?;
    let mut source = MemorySource::new(Vec::new(alloc), 1, vec![in alloc; 0]?);
    let mut sink = MemorySink::new(alloc, 1024, 1024, Vec::new(alloc))?;
    let ended = status_of_call(alloc, &make, &mut source, &mut sink, &mut FirstPicks);
    assert_eq!(rt; (ended, sink.held().len()), (0, 168));
    let mut front = file(alloc, &[1, 4, 1, 16, 16], &[0; 16], 104)?;
    front.extend_from_slice(&[1, 0, 0, 0])?;
    assert!(rt; sink.held().starts_with(&front));
    let made = sink.held().to_vec(alloc)?;
    expect_run(&rt, alloc, &["bfs", "--root", "0"], made, 0, "0 0\n")?;
    Ok(())
}

#[test]
fn a_failed_read_and_a_failed_write_have_their_status(rt: HostRuntime) -> Result<(), Fail> {
    let alloc = rt.alloc();
    let search = owned(alloc, &["bfs", "--root", "0"])?;
    let diamond = file(alloc, &DIAMOND_LONGS, &DIAMOND_WORDS, 80)?;
    let mut source = MemorySource::new(diamond, 7, vec![in alloc; 1]?);
    let mut sink = MemorySink::new(alloc, 100, 100, Vec::new(alloc))?;
    let ended = status_of_call(alloc, &search, &mut source, &mut sink, &mut FirstPicks);
    assert_eq!(rt; (ended, sink.held()), (7, b"fault: read\n".as_slice()));

    let diamond = file(alloc, &DIAMOND_LONGS, &DIAMOND_WORDS, 80)?;
    let mut source = PlainSource::new(diamond);
    let mut sink = MemorySink::new(alloc, 100, 4, vec![in alloc; 2]?)?;
    let ended = status_of_call(alloc, &search, &mut source, &mut sink, &mut FirstPicks);
    assert_eq!(rt; (ended, sink.held()), (6, b"0 0\n1 1\n".as_slice()));

    let mut source = PlainSource::new(Vec::new(alloc));
    let mut sink = MemorySink::new(alloc, 100, 100, vec![in alloc; 0]?)?;
    let refused = owned(alloc, &["bfs"])?;
    let ended = status_of_call(alloc, &refused, &mut source, &mut sink, &mut FirstPicks);
    assert_eq!(rt; (ended, sink.held()), (6, b"".as_slice()));
    Ok(())
}

#[test]
fn a_file_cut_at_any_byte_has_one_line(rt: HostRuntime) -> Result<(), Fail> {
    let alloc = rt.alloc();
    let search = owned(alloc, &["bfs", "--root", "0"])?;
    for length in 0..80 {
        let cut = file(alloc, &DIAMOND_LONGS, &DIAMOND_WORDS, length)?;
        let mut source = PlainSource::new(cut);
        let mut sink = MemorySink::new(alloc, 100, 100, Vec::new(alloc))?;
        let ended = status_of_call(alloc, &search, &mut source, &mut sink, &mut FirstPicks);
        assert_eq!(rt; ended, 3, "cut after {length} bytes");
        let text = sink.held();
        assert!(rt;
            text.starts_with(b"fault: input ends in "),
            "cut after {length} bytes"
        );
        let lines = text.iter().filter(|byte| **byte == b'\n').count();
        assert_eq!(rt; lines, 1, "cut after {length} bytes");
    }
    Ok(())
}

#[test]
fn masters_and_owners_are_told(rt: HostRuntime) -> Result<(), Fail> {
    let alloc = rt.alloc();
    let diamond = file(alloc, &DIAMOND_LONGS, &DIAMOND_WORDS, 80)?;
    expect_run(
        &rt,
        alloc,
        &["owners", "--hosts", "2"],
        diamond,
        0,
        "master 0 0\nmaster 1 1\nmaster 2 1\nmaster 3 1\nedge 0 0 1 0\nedge 1 0 2 0\nedge 2 1 3 1\nedge 3 2 3 1\n",
    )?;
    // A cycle of four vertices, whose hosts stand two in a row.
    let cycle = file(alloc, &[1, 0, 4, 4, 1, 2, 3, 4], &[1, 2, 3, 0], 80)?;
    expect_run(
        &rt,
        alloc,
        &["owners", "--hosts", "4", "--owner", "cartesian"],
        cycle,
        0,
        "master 0 0\nmaster 1 1\nmaster 2 2\nmaster 3 3\nedge 0 0 1 1\nedge 1 1 2 0\nedge 2 2 3 3\nedge 3 3 0 2\n",
    )?;
    let none = file(alloc, &[1, 0, 0, 0], &[], 32)?;
    expect_run(&rt, alloc, &["owners"], none, 0, "")?;
    let falling = file(alloc, &[1, 0, 2, 2, 2, 1], &[], 100)?;
    expect_run(
        &rt,
        alloc,
        &["owners"],
        falling,
        3,
        "fault: index 1 falls\n",
    )?;
    Ok(())
}
