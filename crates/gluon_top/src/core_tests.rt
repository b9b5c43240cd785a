//! K-core and the trial of the four programs. The expected texts were worked out from the definitions.
use crate::run_tests::{CYCLE, Numbers, expect, run};
use crate::tests::{file, owned, status_of_call};
use io_edge::{FirstPicks, MemorySink, MemorySource, MixedPicks};
use std::test::Fail;

/// A triangle of 0, 1 and 2 with a tail from 0 to 3, each edge both ways.
const TAILED: Numbers = (&[1, 0, 4, 8, 3, 5, 7, 8], &[1, 2, 3, 0, 2, 0, 1, 0]);

/// 0 to 0, and 0 to 1 twice.
const DOUBLED: Numbers = (&[1, 0, 2, 3, 3, 3], &[0, 1, 1]);

#[test]
fn members_of_the_core_are_told_with_their_packets(rt: HostRuntime) -> Result<(), Fail> {
    let alloc = rt.alloc();
    let all: [(&[&str], Numbers, &str); 5] = [
        (
            &["kcore", "--k", "2", "--hosts", "2", "--trace", "--report"],
            TAILED,
            "round 1 reduce 0 1 000200000001000000\n\
             round 1 reduce 1 0 000200000001000000\n\
             round 2 reduce 0 1 03\n\
             round 2 reduce 1 0 010101000000\n\
             0 1\n1 1\n2 1\n3 0\n\
             rounds 2\npackets 4\nbytes 25\nmirrors 4\nno-out yes\nno-in no\nno-both yes\n",
        ),
        (
            &["kcore", "--k=0", "--hosts=2", "--report"],
            TAILED,
            "0 1\n1 1\n2 1\n3 1\n\
             rounds 1\npackets 2\nbytes 18\nmirrors 4\nno-out yes\nno-in no\nno-both yes\n",
        ),
        (
            &["kcore", "--k=2", "--way=both", "--hosts=1", "--report"],
            DOUBLED,
            "0 1\n1 1\n\
             rounds 1\npackets 0\nbytes 0\nmirrors 0\nno-out yes\nno-in yes\nno-both yes\n",
        ),
        (
            &["kcore", "--k=3", "--way=both", "--hosts=1", "--report"],
            DOUBLED,
            "0 0\n1 0\n\
             rounds 3\npackets 0\nbytes 0\nmirrors 0\nno-out yes\nno-in yes\nno-both yes\n",
        ),
        (
            &["kcore", "--k=2", "--way=both", "--hosts=3"],
            CYCLE,
            "0 1\n1 1\n2 1\n3 1\n",
        ),
    ];
    for (words, numbers, text) in all {
        expect(&rt, alloc, words, numbers, 0, text)?;
    }
    Ok(())
}

#[test]
fn a_path_is_peeled_from_both_ends(rt: HostRuntime) -> Result<(), Fail> {
    let alloc = rt.alloc();
    let mut bytes = file(alloc, &[1, 0, 200, 199], &[], 32)?;
    for vertex in 1..201u64 {
        bytes.extend_from_slice(&vertex.min(199).to_le_bytes())?;
    }
    for vertex in 1..200u32 {
        bytes.extend_from_slice(&vertex.to_le_bytes())?;
    }
    bytes.extend_from_slice(&[0; 4])?;
    let words = ["kcore", "--k=2", "--way=both", "--report"];
    let came = run(alloc, &words, bytes, &mut MixedPicks::new())?;
    let text = came.1.as_slice();
    assert_eq!(rt; came.0, 0);
    assert!(rt; text.starts_with(b"0 0\n1 0\n"));
    assert!(rt;
        text.windows(21)
            .any(|lines| lines == b"199 0\nrounds 101\npack".as_slice())
    );
    Ok(())
}

#[test]
fn a_trial_reads_nothing_and_tells_six_lines(rt: HostRuntime) -> Result<(), Fail> {
    let alloc = rt.alloc();
    let words = owned(alloc, &["selfrun", "--size", "1"])?;
    let mut source = MemorySource::new(Vec::new(alloc), 1, vec![in alloc; 0]?);
    let mut sink = MemorySink::new(alloc, 1024, 1024, Vec::new(alloc))?;
    let ended = status_of_call(alloc, &words, &mut source, &mut sink, &mut FirstPicks);
    let text = b"nodes 1\n\
                 edges 16\n\
                 bfs reached 1 sum 0 greatest 0\n\
                 sssp reached 1 sum 0 greatest 0\n\
                 cc labels 1\n\
                 core 8 members 1\n"
        .as_slice();
    assert_eq!(rt; (ended, sink.held()), (0, text));
    Ok(())
}
