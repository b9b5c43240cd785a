//! Runs over hosts. The expected texts were worked out from the definitions.
use crate::tests::{DIAMOND_LONGS, DIAMOND_WORDS, file, owned, status_of_call};
use crate::{LastRun, Outcome, gluon_main};
use io_edge::{FirstPicks, LastPicks, ListedPicks, MemorySink, MixedPicks, Picker, PlainSource};
use std::alloc::{AllocError, Global};
use std::process::Abort;
use std::test::Fail;

/// 0 to 0, 0 to 1 twice, 1 to 2 and 2 to 1; nothing reaches 3 and 4.
const LOOP_LONGS: [u64; 9] = [1, 0, 5, 5, 3, 4, 5, 5, 5];

const LOOP_WORDS: [u32; 5] = [0, 1, 1, 2, 1];

/// A file: its numbers of 8 bytes, and then those of 4.
pub(crate) type Numbers = (&'static [u64], &'static [u32]);

const DIAMOND: Numbers = (&DIAMOND_LONGS, &DIAMOND_WORDS);

/// A cycle of four vertices.
pub(crate) const CYCLE: Numbers = (&[1, 0, 4, 4, 1, 2, 3, 4], &[1, 2, 3, 0]);

/// 0 to 1 of weight 10, 0 to 2 of weight 1, 2 to 1 of weight 2.
const DETOUR: Numbers = (&[1, 4, 3, 3, 2, 2, 3], &[1, 2, 1, 0, 10, 1, 2]);

/// 0 to 1, and 1 to 2 and to 3.
const FORK: Numbers = (&[1, 0, 4, 3, 1, 3, 3, 3], &[1, 2, 3]);

/// What these words come to on these bytes.
pub(crate) fn run<P: Picker>(
    alloc: Global,
    words: &[&str],
    bytes: Vec<u8>,
    picker: &mut P,
) -> Result<(u8, Vec<u8>), AllocError> {
    let words = owned(alloc, words)?;
    let mut source = PlainSource::new(bytes);
    let mut sink = MemorySink::new(alloc, 65536, 65536, Vec::new(alloc))?;
    let ended = status_of_call(alloc, &words, &mut source, &mut sink, picker);
    Ok((ended, sink.held().to_vec(alloc)?))
}

/// These words on this file end with this status and this text.
pub(crate) fn expect(
    rt: &impl Abort,
    alloc: Global,
    words: &[&str],
    numbers: Numbers,
    status: u8,
    text: &str,
) -> Result<(), AllocError> {
    let bytes = file(alloc, numbers.0, numbers.1, 1000)?;
    let came = run(alloc, words, bytes, &mut FirstPicks)?;
    assert_eq!(rt; came.1.as_slice(), text.as_bytes());
    assert_eq!(rt; came.0, status, "where {text} is written");
    Ok(())
}

#[test]
fn packets_and_a_report_are_told(rt: HostRuntime) -> Result<(), Fail> {
    let alloc = rt.alloc();
    let all: [(&[&str], Numbers, &str); 5] = [
        (
            &["bfs", "--root", "0", "--hosts", "2", "--trace", "--report"],
            DIAMOND,
            "round 1 reduce 0 1 000100000001000000\n\
             round 2 reduce 0 1 03\n\
             round 3 reduce 0 1 03\n\
             0 0\n1 1\n2 1\n3 2\n\
             rounds 3\npackets 3\nbytes 11\nmirrors 2\nno-out yes\nno-in no\nno-both yes\n",
        ),
        (
            &[
                "bfs",
                "--root=0",
                "--hosts=2",
                "--owner=dest",
                "--trace",
                "--report",
            ],
            DIAMOND,
            "round 1 spread 0 1 03\n\
             round 2 spread 0 1 03\n\
             round 3 spread 0 1 03\n\
             0 0\n1 1\n2 1\n3 2\n\
             rounds 3\npackets 3\nbytes 3\nmirrors 1\nno-out no\nno-in yes\nno-both yes\n",
        ),
        (
            &[
                "bfs",
                "--root=0",
                "--hosts=2",
                "--owner=hybrid",
                "--threshold=1",
                "--trace",
                "--report",
            ],
            FORK,
            "round 1 spread 0 1 0001000000\n\
             round 2 spread 0 1 03\n\
             round 3 spread 0 1 03\n\
             0 0\n1 1\n2 2\n3 2\n\
             rounds 3\npackets 3\nbytes 7\nmirrors 1\nno-out no\nno-in yes\nno-both yes\n",
        ),
        (
            &["sssp", "--root=0", "--hosts=2", "--trace", "--report"],
            DETOUR,
            "round 1 reduce 0 1 000a000000000000000100000000000000\n\
             round 2 reduce 0 1 03\n\
             round 3 reduce 0 1 03\n\
             0 0\n1 3\n2 1\n\
             rounds 3\npackets 3\nbytes 19\nmirrors 2\nno-out yes\nno-in no\nno-both yes\n",
        ),
        (
            &["cc", "--report"],
            (&[1, 0, 0, 0], &[]),
            "rounds 1\npackets 0\nbytes 0\nmirrors 0\nno-out yes\nno-in yes\nno-both yes\n",
        ),
    ];
    for (words, numbers, text) in all {
        expect(&rt, alloc, words, numbers, 0, text)?;
    }
    Ok(())
}

#[test]
fn a_cycle_goes_once_around_its_hosts(rt: HostRuntime) -> Result<(), Fail> {
    let alloc = rt.alloc();
    let words = [
        "bfs",
        "--root",
        "0",
        "--hosts",
        "4",
        "--owner",
        "cartesian",
        "--trace",
        "--report",
    ];
    let bytes = file(alloc, CYCLE.0, CYCLE.1, 1000)?;
    let came = run(alloc, &words, bytes, &mut LastPicks)?;
    let text = came.1.as_slice();
    let round = b"round 2 reduce 0 2 0002000000\n\
                  round 2 reduce 2 0 03\n\
                  round 2 spread 0 1 03\n\
                  round 2 spread 1 0 03\n\
                  round 2 spread 2 3 0002000000\n\
                  round 2 spread 3 2 03\n"
        .as_slice();
    let end = b"0 0\n1 1\n2 2\n3 3\n\
                rounds 4\npackets 24\nbytes 40\nmirrors 6\nno-out no\nno-in no\nno-both yes\n"
        .as_slice();
    assert!(rt; text.windows(round.len()).any(|lines| lines == round));
    assert!(rt; text.ends_with(end));
    assert_eq!(rt; came.0, 0);
    Ok(())
}

#[test]
fn ways_and_weights_are_followed(rt: HostRuntime) -> Result<(), Fail> {
    let alloc = rt.alloc();
    let weighted: Numbers = (&[1, 4, 2, 1, 1, 1], &[1, u32::MAX, 7]);
    let alone: Numbers = (&[1, 0, 3, 0, 0, 0, 0], &[]);
    let back: Numbers = (&[1, 0, 3, 1, 0, 0, 1], &[1]);
    let heavy: Numbers = (
        &[1, 4, 4, 3, 1, 2, 3, 3],
        &[1, 2, 3, 0, u32::MAX, 0, u32::MAX],
    );
    let all: [(&[&str], Numbers, &str); 9] = [
        (&["bfs", "--root=0", "--hosts=4"], alone, "0 0\n1 -\n2 -\n"),
        (&["sssp", "--root=0"], weighted, "0 0\n1 7\n"),
        (&["sssp", "--root=1"], weighted, "0 -\n1 0\n"),
        (&["sssp", "--root=1", "--way=in"], weighted, "0 7\n1 0\n"),
        (&["sssp", "--root=1", "--way=both"], weighted, "0 7\n1 0\n"),
        (&["cc", "--way=out"], back, "0 0\n1 1\n2 2\n"),
        (&["cc"], back, "0 0\n1 1\n2 1\n"),
        (&["cc", "--way=in"], back, "0 0\n1 1\n2 1\n"),
        (
            &["sssp", "--root=0", "--hosts=3"],
            heavy,
            "0 0\n1 4294967295\n2 4294967295\n3 8589934590\n",
        ),
    ];
    for (words, numbers, text) in all {
        expect(&rt, alloc, words, numbers, 0, text)?;
    }
    Ok(())
}

#[test]
fn a_spent_budget_has_its_line(rt: HostRuntime) -> Result<(), Fail> {
    let alloc = rt.alloc();
    expect(
        &rt,
        alloc,
        &["bfs", "--root=0", "--hosts=2", "--rounds=2", "--trace"],
        DIAMOND,
        5,
        "round 1 reduce 0 1 000100000001000000\nround 2 reduce 0 1 03\nfault: rounds 2 spent\n",
    )?;
    expect(
        &rt,
        alloc,
        &["bfs", "--root=0", "--hosts=2", "--rounds=3"],
        DIAMOND,
        0,
        "0 0\n1 1\n2 1\n3 2\n",
    )?;
    Ok(())
}

#[test]
fn a_path_takes_as_many_rounds_as_it_has_vertices(rt: HostRuntime) -> Result<(), Fail> {
    let alloc = rt.alloc();
    let mut bytes = file(alloc, &[1, 0, 1000, 999], &[], 32)?;
    for vertex in 1..1001u64 {
        bytes.extend_from_slice(&vertex.min(999).to_le_bytes())?;
    }
    for vertex in 1..1000u32 {
        bytes.extend_from_slice(&vertex.to_le_bytes())?;
    }
    let came = run(
        alloc,
        &["bfs", "--root=0", "--report"],
        bytes,
        &mut FirstPicks,
    )?;
    let text = came.1.as_slice();
    assert_eq!(rt; came.0, 0);
    assert!(rt;
        text.windows(24)
            .any(|lines| lines == b"999 999\nrounds 1000\npack".as_slice())
    );
    Ok(())
}

#[test]
fn every_partition_gives_the_same_answers(rt: HostRuntime) -> Result<(), Fail> {
    let alloc = rt.alloc();
    for hosts in [
        "--hosts=1",
        "--hosts=2",
        "--hosts=3",
        "--hosts=7",
        "--hosts=64",
    ] {
        for owner in ["source", "dest", "hybrid", "cartesian"] {
            for masters in ["edges", "nodes"] {
                let words = [
                    "bfs",
                    "--root=0",
                    "--threshold=1",
                    hosts,
                    "--owner",
                    owner,
                    "--masters",
                    masters,
                ];
                expect(
                    &rt,
                    alloc,
                    &words,
                    (&LOOP_LONGS, &LOOP_WORDS),
                    0,
                    "0 0\n1 1\n2 2\n3 -\n4 -\n",
                )?;
            }
        }
    }
    Ok(())
}

#[test]
fn every_order_gives_the_same_text(rt: HostRuntime) -> Result<(), Fail> {
    let alloc = rt.alloc();
    let words = [
        "bfs",
        "--root=0",
        "--hosts=4",
        "--owner=cartesian",
        "--trace",
        "--report",
        "--order=77",
    ];
    let other_words = [
        "bfs",
        "--root=0",
        "--hosts=4",
        "--owner=cartesian",
        "--trace",
        "--report",
    ];
    let first = run(
        alloc,
        &words,
        file(alloc, CYCLE.0, CYCLE.1, 1000)?,
        &mut FirstPicks,
    )?;
    let last = run(
        alloc,
        &words,
        file(alloc, CYCLE.0, CYCLE.1, 1000)?,
        &mut LastPicks,
    )?;
    let mixed = run(
        alloc,
        &words,
        file(alloc, CYCLE.0, CYCLE.1, 1000)?,
        &mut MixedPicks::new(),
    )?;
    let other = run(
        alloc,
        &other_words,
        file(alloc, CYCLE.0, CYCLE.1, 1000)?,
        &mut MixedPicks::new(),
    )?;
    assert_eq!(rt; last, first);
    assert_eq!(rt; mixed, first);
    assert_eq!(rt; other, first);
    Ok(())
}

#[test]
fn early_broadcasts_change_no_text(rt: HostRuntime) -> Result<(), Fail> {
    let alloc = rt.alloc();
    let words = [
        "bfs",
        "--root=0",
        "--hosts=2",
        "--owner=hybrid",
        "--threshold=1",
        "--trace",
    ];
    // In each round the packet of host 0 is delivered before host 1 computes.
    let picks = vec![in alloc; 0, 0, 1, 1, 0, 0, 0, 1, 1, 0, 0, 0, 1, 1, 0, 0]?;
    let mut early = ListedPicks::new(picks);
    let mut late = ListedPicks::new(Vec::new(alloc));
    let one = run(
        alloc,
        &words,
        file(alloc, FORK.0, FORK.1, 1000)?,
        &mut early,
    )?;
    let two = run(alloc, &words, file(alloc, FORK.0, FORK.1, 1000)?, &mut late)?;
    assert_eq!(rt; one, two);
    assert_eq!(rt; (early.choices(), late.choices()), (25, 28));
    Ok(())
}

/// How many rounds a search went, on how many hosts; nothing where it handed back no cluster.
fn rounds_and_hosts(outcome: Outcome) -> (u64, usize) {
    match outcome.last {
        Some(LastRun::Bfs(cluster)) => (cluster.round(), cluster.hosts().len()),
        _ => (0, 0),
    }
}

#[test]
fn a_run_hands_back_its_cluster(rt: HostRuntime) -> Result<(), Fail> {
    let alloc = rt.alloc();
    let words = owned(
        alloc,
        &["bfs", "--root=0", "--hosts=2", "--order=9", "--trace"],
    )?;
    let mut source = PlainSource::new(file(alloc, DIAMOND.0, DIAMOND.1, 1000)?);
    let mut sink = MemorySink::new(alloc, 1000, 1000, Vec::new(alloc))?;
    let mut picker = ListedPicks::new(Vec::new(alloc));
    let came = rounds_and_hosts(gluon_main(alloc, &words, &mut source, &mut sink, &mut picker));
    assert_eq!(rt; came, (3, 2));
    assert_eq!(rt; (picker.asked(), picker.begun()), (16, Some(9)));
    Ok(())
}
