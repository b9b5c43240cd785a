//! The text of proxies and lists. The expected texts were worked out from the definitions.
ghost use Rattle.graph_division.specs.Partition.{IsPartition};

use crate::tests::{DIAMOND_LONGS, DIAMOND_WORDS, expect_run, file};
use cusp_rules::MasterRule;
use edge_owner::{OwnerRule, Rules};
use graph_maker::make;
use graph_model::Way;
use io_edge::{FirstPicks, LastPicks, ListedPicks, MemorySink, Picker, SinkFault};
use memo_exchange::exchange;
use partition_build::build_list;
use partition_text::write_partition;
use proxy_graph::LocalGraph;
use std::alloc::{AllocError, Global};
use std::process::Abort;
use std::test::Fail;

/// Edges 0 to 0, 0 to 1 twice, 1 to 2 and 2 to 1.
const LOOP_LONGS: [u64; 7] = [1, 0, 3, 5, 3, 4, 5];

const LOOP_WORDS: [u32; 5] = [0, 1, 1, 2, 1];

#[test]
fn proxies_and_lists_are_told(rt: HostRuntime) -> Result<(), Fail> {
    let alloc = rt.alloc();
    let all: [(&[&str], &[u64], &[u32], &str); 4] = [
        (
            &["proxies", "--hosts", "2"],
            &DIAMOND_LONGS,
            &DIAMOND_WORDS,
            "host 0 masters 1 mirrors 2 edges 2\n\
             proxy 0 0 0 o-r-\n\
             proxy 0 1 1 -i-w\n\
             proxy 0 2 1 -i-w\n\
             host 1 masters 3 mirrors 0 edges 2\n\
             proxy 1 1 1 o-r-\n\
             proxy 1 2 1 o-r-\n\
             proxy 1 3 1 -i-w\n\
             reduce 0 1 1 2\n\
             no-out yes\n\
             no-in no\n\
             no-both yes\n",
        ),
        (
            &["--way=in", "proxies", "--hosts=2"],
            &DIAMOND_LONGS,
            &DIAMOND_WORDS,
            "host 0 masters 1 mirrors 2 edges 2\n\
             proxy 0 0 0 o--w\n\
             proxy 0 1 1 -ir-\n\
             proxy 0 2 1 -ir-\n\
             host 1 masters 3 mirrors 0 edges 2\n\
             proxy 1 1 1 o--w\n\
             proxy 1 2 1 o--w\n\
             proxy 1 3 1 -ir-\n\
             spread 1 0 1 2\n\
             no-out yes\n\
             no-in no\n\
             no-both yes\n",
        ),
        (
            &["proxies", "--hosts", "2"],
            &[1, 0, 0, 0],
            &[],
            "host 0 masters 0 mirrors 0 edges 0\n\
             host 1 masters 0 mirrors 0 edges 0\n\
             no-out yes\n\
             no-in yes\n\
             no-both yes\n",
        ),
        (
            &["proxies", "--hosts", "5", "--way", "auto"],
            &[1, 0, 2, 2, 1, 2],
            &[1, 0],
            "host 0 masters 1 mirrors 1 edges 1\n\
             proxy 0 0 0 o-r-\n\
             proxy 0 1 1 -i-w\n\
             host 1 masters 1 mirrors 1 edges 1\n\
             proxy 1 1 1 o-r-\n\
             proxy 1 0 0 -i-w\n\
             host 2 masters 0 mirrors 0 edges 0\n\
             host 3 masters 0 mirrors 0 edges 0\n\
             host 4 masters 0 mirrors 0 edges 0\n\
             reduce 0 1 1\n\
             reduce 1 0 0\n\
             no-out yes\n\
             no-in no\n\
             no-both yes\n",
        ),
    ];
    for (words, longs, ends, text) in all {
        let bytes = file(alloc, longs, ends, 100)?;
        expect_run(&rt, alloc, words, bytes, 0, text)?;
    }
    Ok(())
}

#[test]
fn proxies_are_told_by_each_owner_and_way(rt: HostRuntime) -> Result<(), Fail> {
    let alloc = rt.alloc();
    for (owner, way, text) in [
        (
            "source",
            "out",
            "host 0 masters 1 mirrors 1 edges 3\n\
             proxy 0 0 0 oirw\n\
             proxy 0 1 1 -i-w\n\
             host 1 masters 1 mirrors 1 edges 1\n\
             proxy 1 1 1 o-r-\n\
             proxy 1 2 2 -i-w\n\
             host 2 masters 1 mirrors 1 edges 1\n\
             proxy 2 2 2 o-r-\n\
             proxy 2 1 1 -i-w\n\
             host 3 masters 0 mirrors 0 edges 0\n\
             reduce 0 1 1\n\
             reduce 1 2 2\n\
             reduce 2 1 1\n\
             no-out yes\n\
             no-in no\n\
             no-both yes\n",
        ),
        (
            "source",
            "in",
            "host 0 masters 1 mirrors 1 edges 3\n\
             proxy 0 0 0 oirw\n\
             proxy 0 1 1 -ir-\n\
             host 1 masters 1 mirrors 1 edges 1\n\
             proxy 1 1 1 o--w\n\
             proxy 1 2 2 -ir-\n\
             host 2 masters 1 mirrors 1 edges 1\n\
             proxy 2 2 2 o--w\n\
             proxy 2 1 1 -ir-\n\
             host 3 masters 0 mirrors 0 edges 0\n\
             spread 1 0 1\n\
             spread 1 2 1\n\
             spread 2 1 2\n\
             no-out yes\n\
             no-in no\n\
             no-both yes\n",
        ),
        (
            "source",
            "both",
            "host 0 masters 1 mirrors 1 edges 3\n\
             proxy 0 0 0 oirw\n\
             proxy 0 1 1 -irw\n\
             host 1 masters 1 mirrors 1 edges 1\n\
             proxy 1 1 1 o-rw\n\
             proxy 1 2 2 -irw\n\
             host 2 masters 1 mirrors 1 edges 1\n\
             proxy 2 2 2 o-rw\n\
             proxy 2 1 1 -irw\n\
             host 3 masters 0 mirrors 0 edges 0\n\
             reduce 0 1 1\n\
             reduce 1 2 2\n\
             reduce 2 1 1\n\
             spread 1 0 1\n\
             spread 1 2 1\n\
             spread 2 1 2\n\
             no-out yes\n\
             no-in no\n\
             no-both yes\n",
        ),
        (
            "dest",
            "out",
            "host 0 masters 1 mirrors 0 edges 1\n\
             proxy 0 0 0 oirw\n\
             host 1 masters 1 mirrors 2 edges 3\n\
             proxy 1 1 1 -i-w\n\
             proxy 1 0 0 o-r-\n\
             proxy 1 2 2 o-r-\n\
             host 2 masters 1 mirrors 1 edges 1\n\
             proxy 2 2 2 -i-w\n\
             proxy 2 1 1 o-r-\n\
             host 3 masters 0 mirrors 0 edges 0\n\
             spread 0 1 0\n\
             spread 1 2 1\n\
             spread 2 1 2\n\
             no-out no\n\
             no-in yes\n\
             no-both yes\n",
        ),
        (
            "dest",
            "in",
            "host 0 masters 1 mirrors 0 edges 1\n\
             proxy 0 0 0 oirw\n\
             host 1 masters 1 mirrors 2 edges 3\n\
             proxy 1 1 1 -ir-\n\
             proxy 1 0 0 o--w\n\
             proxy 1 2 2 o--w\n\
             host 2 masters 1 mirrors 1 edges 1\n\
             proxy 2 2 2 -ir-\n\
             proxy 2 1 1 o--w\n\
             host 3 masters 0 mirrors 0 edges 0\n\
             reduce 1 0 0\n\
             reduce 1 2 2\n\
             reduce 2 1 1\n\
             no-out no\n\
             no-in yes\n\
             no-both yes\n",
        ),
        (
            "dest",
            "both",
            "host 0 masters 1 mirrors 0 edges 1\n\
             proxy 0 0 0 oirw\n\
             host 1 masters 1 mirrors 2 edges 3\n\
             proxy 1 1 1 -irw\n\
             proxy 1 0 0 o-rw\n\
             proxy 1 2 2 o-rw\n\
             host 2 masters 1 mirrors 1 edges 1\n\
             proxy 2 2 2 -irw\n\
             proxy 2 1 1 o-rw\n\
             host 3 masters 0 mirrors 0 edges 0\n\
             reduce 1 0 0\n\
             reduce 1 2 2\n\
             reduce 2 1 1\n\
             spread 0 1 0\n\
             spread 1 2 1\n\
             spread 2 1 2\n\
             no-out no\n\
             no-in yes\n\
             no-both yes\n",
        ),
        (
            "hybrid",
            "out",
            "host 0 masters 1 mirrors 0 edges 1\n\
             proxy 0 0 0 oirw\n\
             host 1 masters 1 mirrors 2 edges 3\n\
             proxy 1 1 1 oirw\n\
             proxy 1 0 0 o-r-\n\
             proxy 1 2 2 -i-w\n\
             host 2 masters 1 mirrors 1 edges 1\n\
             proxy 2 2 2 o-r-\n\
             proxy 2 1 1 -i-w\n\
             host 3 masters 0 mirrors 0 edges 0\n\
             reduce 1 2 2\n\
             reduce 2 1 1\n\
             spread 0 1 0\n\
             no-out no\n\
             no-in no\n\
             no-both yes\n",
        ),
        (
            "hybrid",
            "in",
            "host 0 masters 1 mirrors 0 edges 1\n\
             proxy 0 0 0 oirw\n\
             host 1 masters 1 mirrors 2 edges 3\n\
             proxy 1 1 1 oirw\n\
             proxy 1 0 0 o--w\n\
             proxy 1 2 2 -ir-\n\
             host 2 masters 1 mirrors 1 edges 1\n\
             proxy 2 2 2 o--w\n\
             proxy 2 1 1 -ir-\n\
             host 3 masters 0 mirrors 0 edges 0\n\
             reduce 1 0 0\n\
             spread 1 2 1\n\
             spread 2 1 2\n\
             no-out no\n\
             no-in no\n\
             no-both yes\n",
        ),
        (
            "hybrid",
            "both",
            "host 0 masters 1 mirrors 0 edges 1\n\
             proxy 0 0 0 oirw\n\
             host 1 masters 1 mirrors 2 edges 3\n\
             proxy 1 1 1 oirw\n\
             proxy 1 0 0 o-rw\n\
             proxy 1 2 2 -irw\n\
             host 2 masters 1 mirrors 1 edges 1\n\
             proxy 2 2 2 o-rw\n\
             proxy 2 1 1 -irw\n\
             host 3 masters 0 mirrors 0 edges 0\n\
             reduce 1 0 0\n\
             reduce 1 2 2\n\
             reduce 2 1 1\n\
             spread 0 1 0\n\
             spread 1 2 1\n\
             spread 2 1 2\n\
             no-out no\n\
             no-in no\n\
             no-both yes\n",
        ),
        (
            "cartesian",
            "out",
            "host 0 masters 1 mirrors 2 edges 2\n\
             proxy 0 0 0 oirw\n\
             proxy 0 1 1 o-r-\n\
             proxy 0 2 2 -i-w\n\
             host 1 masters 1 mirrors 1 edges 2\n\
             proxy 1 1 1 -i-w\n\
             proxy 1 0 0 o-r-\n\
             host 2 masters 1 mirrors 0 edges 0\n\
             proxy 2 2 2 ----\n\
             host 3 masters 0 mirrors 2 edges 1\n\
             proxy 3 1 1 -i-w\n\
             proxy 3 2 2 o-r-\n\
             reduce 0 2 2\n\
             reduce 3 1 1\n\
             spread 0 1 0\n\
             spread 1 0 1\n\
             spread 2 3 2\n\
             no-out no\n\
             no-in no\n\
             no-both yes\n",
        ),
        (
            "cartesian",
            "in",
            "host 0 masters 1 mirrors 2 edges 2\n\
             proxy 0 0 0 oirw\n\
             proxy 0 1 1 o--w\n\
             proxy 0 2 2 -ir-\n\
             host 1 masters 1 mirrors 1 edges 2\n\
             proxy 1 1 1 -ir-\n\
             proxy 1 0 0 o--w\n\
             host 2 masters 1 mirrors 0 edges 0\n\
             proxy 2 2 2 ----\n\
             host 3 masters 0 mirrors 2 edges 1\n\
             proxy 3 1 1 -ir-\n\
             proxy 3 2 2 o--w\n\
             reduce 0 1 1\n\
             reduce 1 0 0\n\
             reduce 3 2 2\n\
             spread 1 3 1\n\
             spread 2 0 2\n\
             no-out no\n\
             no-in no\n\
             no-both yes\n",
        ),
        (
            "cartesian",
            "both",
            "host 0 masters 1 mirrors 2 edges 2\n\
             proxy 0 0 0 oirw\n\
             proxy 0 1 1 o-rw\n\
             proxy 0 2 2 -irw\n\
             host 1 masters 1 mirrors 1 edges 2\n\
             proxy 1 1 1 -irw\n\
             proxy 1 0 0 o-rw\n\
             host 2 masters 1 mirrors 0 edges 0\n\
             proxy 2 2 2 ----\n\
             host 3 masters 0 mirrors 2 edges 1\n\
             proxy 3 1 1 -irw\n\
             proxy 3 2 2 o-rw\n\
             reduce 0 1 1\n\
             reduce 0 2 2\n\
             reduce 1 0 0\n\
             reduce 3 1 1\n\
             reduce 3 2 2\n\
             spread 0 1 0\n\
             spread 1 0 1\n\
             spread 1 3 1\n\
             spread 2 0 2\n\
             spread 2 3 2\n\
             no-out no\n\
             no-in no\n\
             no-both yes\n",
        ),
    ] {
        let words = [
            "proxies",
            "--masters",
            "nodes",
            "--threshold",
            "2",
            "--owner",
            owner,
            "--way",
            way,
        ];
        let bytes = file(alloc, &LOOP_LONGS, &LOOP_WORDS, 100)?;
        expect_run(&rt, alloc, &words, bytes, 0, text)?;
    }
    Ok(())
}

#[test]
fn a_damaged_file_has_its_line_and_no_proxies(rt: HostRuntime) -> Result<(), Fail> {
    let alloc = rt.alloc();
    for (length, line) in [
        (31, "fault: input ends in head after 31 bytes\n"),
        (40, "fault: input ends in index after 8 bytes\n"),
        (79, "fault: input ends in destinations after 15 bytes\n"),
    ] {
        let cut = file(alloc, &DIAMOND_LONGS, &DIAMOND_WORDS, length)?;
        expect_run(&rt, alloc, &["proxies"], cut, 3, line)?;
    }
    Ok(())
}

/// The text of a partition whose hosts told each other their lists in the order of these picks.
fn text_by_picks<P: Picker>(
    alloc: Global,
    graphs: &[LocalGraph],
    picker: &mut P,
) -> Result<Vec<u8>, AllocError>
    requires { IsPartition graphs.now }
{
    let memos = exchange(alloc, graphs, Way::Both, picker)?;
    let mut sink = MemorySink::new(alloc, 65_536, 65_536, Vec::new(alloc))?;
    match write_partition(&mut sink, graphs, &memos, Way::Both) {
        Ok(()) => sink.held().to_vec(alloc),
        Err(SinkFault) => Err(AllocError),
    }
}

#[test]
fn lists_of_64_hosts_are_the_same_whoever_is_heard_first(rt: HostRuntime) -> Result<(), Fail> {
    let alloc = rt.alloc();
    let list = make(alloc, 64, 1)?;
    let rules = Rules {
        masters: MasterRule::Nodes,
        owner: OwnerRule::Cartesian,
    };
    let graphs = build_list(alloc, &list, rules, 64)?;
    let mut picks = Vec::new(alloc);
    for i in 0..1000_u32 {
        picks.push(i.wrapping_mul(7919))?;
    }
    let first = text_by_picks(alloc, &graphs, &mut FirstPicks)?;
    let last = text_by_picks(alloc, &graphs, &mut LastPicks)?;
    let listed = text_by_picks(alloc, &graphs, &mut ListedPicks::new(picks))?;
    assert!(rt; first.starts_with(b"host 0 masters 1 mirrors "));
    assert_eq!(rt; last.as_slice(), first.as_slice());
    assert_eq!(rt; listed.as_slice(), first.as_slice());
    Ok(())
}
