use crate::{Job, RunWords, WordsFault, read_words};
use cusp_rules::MasterRule;
use edge_owner::{OwnerRule, Rules};
use graph_model::Way;
use std::alloc::{AllocError, Global};
use std::test::Fail;

/// The words of a line, parted by spaces.
fn words_of(alloc: Global, line: &str) -> Result<Vec<String>, AllocError> {
    let mut words = Vec::new(alloc);
    for word in line.split(' ') {
        words.push(String::from_str(alloc, word)?)?;
    }
    Ok(words)
}

fn read(alloc: Global, line: &str) -> Result<Job, WordsFault> {
    read_words(alloc, words_of(alloc, line)?.as_slice())
}

const DEFAULTS: RunWords = RunWords {
    hosts: 4,
    rules: Rules {
        masters: MasterRule::Edges,
        owner: OwnerRule::Source,
    },
    way: Way::Outward,
    rounds: None,
    order: 0,
    report: false,
    trace: false,
};

#[test]
fn lines_that_ask_for_no_job(rt: HostRuntime) -> Result<(), Fail> {
    let lines = [
        "",
        "bfs",
        "bfs --root 0 --root 1",
        "bfs --root +1",
        "bfs --root -1",
        "kcore --k 3 --root 0",
        "cc --hosts 0",
        "cc --hosts 65",
        "cc --trace=yes",
        "make",
        "walk",
        "cc cc",
        "-- cc --",
        "cc -",
        "cc -x",
        "cc --trace=",
        "bfs --root=",
        "bfs --root",
        "bfs --root -- 1",
        "bfs --root 4294967296",
        "make --size 0",
        "make --size 1000001",
        "make --size 1 --number 000000000000000000001",
        "make --size 1 --number 18446744073709551616",
        "cc --rounds 0",
        "cc --help",
        "cc --host 4",
        "cc --trace --trace",
        "cc -- --trace",
        "bfs --root -",
        "cc --way up",
        "owners --way out",
        "owners --owner hybrid --threshold x",
        "cc --Hosts 4",
        "--root 1 cc",
        "cc ---",
        "cc --=1",
    ];
    for line in lines {
        assert_eq!(rt; read(rt.alloc(), line), Err(WordsFault::Refused), "{line}");
    }
    Ok(())
}

#[test]
fn all_jobs_are_read(rt: HostRuntime) -> Result<(), Fail> {
    let both = RunWords {
        way: Way::Both,
        ..DEFAULTS
    };
    let full = RunWords {
        hosts: 64,
        rules: Rules {
            masters: MasterRule::Nodes,
            owner: OwnerRule::Hybrid(0),
        },
        way: Way::Inward,
        rounds: Some(4294967295),
        order: 18446744073709551615,
        report: true,
        trace: true,
    };
    let rules = DEFAULTS.rules;
    let hybrid = Rules {
        masters: MasterRule::Edges,
        owner: OwnerRule::Hybrid(1000),
    };
    let cartesian = Rules {
        masters: MasterRule::Edges,
        owner: OwnerRule::Cartesian,
    };
    let lines = [
        (
            "--root=007 bfs",
            Job::Bfs {
                root: 7,
                run: DEFAULTS,
            },
        ),
        (
            "cc --hosts=64",
            Job::Cc {
                run: RunWords { hosts: 64, ..both },
            },
        ),
        ("-- cc", Job::Cc { run: both }),
        ("cc --", Job::Cc { run: both }),
        (
            "sssp --root 00000000004294967295",
            Job::Sssp {
                root: 4294967295,
                run: DEFAULTS,
            },
        ),
        (
            "--order 18446744073709551615 --trace --way in --k=0 --threshold 0 kcore --owner=hybrid --masters nodes --report --rounds 4294967295 --hosts 64",
            Job::Kcore { k: 0, run: full },
        ),
        ("owners --threshold 5", Job::Owners { hosts: 4, rules }),
        (
            "owners --owner hybrid",
            Job::Owners {
                hosts: 4,
                rules: hybrid,
            },
        ),
        (
            "proxies --hosts 1 --way both",
            Job::Proxies {
                hosts: 1,
                rules,
                way: Way::Both,
            },
        ),
        (
            "proxies --owner cartesian",
            Job::Proxies {
                hosts: 4,
                rules: cartesian,
                way: Way::Outward,
            },
        ),
        (
            "make --size 1000000",
            Job::Make {
                size: 1000000,
                number: 1,
            },
        ),
        (
            "--size 1 selfrun --order 7",
            Job::Selfrun {
                size: 1,
                number: 1,
                hosts: 4,
                rules,
                order: 7,
            },
        ),
    ];
    for (line, job) in lines {
        assert_eq!(rt; read(rt.alloc(), line), Ok(job), "{line}");
    }
    Ok(())
}

#[test]
fn long_and_foreign_words(rt: HostRuntime) -> Result<(), Fail> {
    let alloc = rt.alloc();
    let mut long = String::new(alloc);
    for _ in 0..100_000 {
        long.push('7')?;
    }
    let mut words = words_of(alloc, "bfs --root")?;
    words.push(long)?;
    assert_eq!(rt;
        read_words(alloc, words.as_slice()),
        Err(WordsFault::Refused)
    );
    let mut many = Vec::new(alloc);
    for _ in 0..10_000 {
        many.push(String::from_str(alloc, "cc")?)?;
    }
    assert_eq!(rt;
        read_words(alloc, many.as_slice()),
        Err(WordsFault::Refused)
    );
    let none = Vec::new(alloc);
    assert_eq!(rt;
        read_words(alloc, none.as_slice()),
        Err(WordsFault::Refused)
    );
    for line in [
        "ćć",
        "cc --höst 4",
        "bfs --root ٣",
        "-ü cc",
        "cc --way=ноль",
    ] {
        assert_eq!(rt; read(alloc, line), Err(WordsFault::Refused), "{line}");
    }
    Ok(())
}
