//! The bytes of each line, and what a sink that fails holds of it.
use super::*;
use io_edge::MemorySink;
use packet_table::{ChannelSpec, Leg};
use std::alloc::Global;
use std::test::Fail;

#[test]
fn answers_have_a_number_and_a_value_or_a_dash(rt: HostRuntime) -> Result<(), Fail> {
    let alloc: Global = rt.alloc();
    let mut sink = MemorySink::new(alloc, 100, 7, Vec::new(alloc))?;
    for (v, value) in [
        (0, Some(0)),
        (1, None),
        (4_294_967_295, Some(18_446_744_073_709_551_615)),
    ] {
        assert_eq!(rt; write_answer(&mut sink, v, value), Ok(()));
    }
    let want = b"0 0\n1 -\n4294967295 18446744073709551615\n";
    assert_eq!(rt; sink.held(), want.as_slice());
    Ok(())
}

#[test]
fn words_are_followed_by_numbers_in_their_order(rt: HostRuntime) -> Result<(), Fail> {
    let alloc: Global = rt.alloc();
    let mut sink = MemorySink::new(alloc, 100, 7, Vec::new(alloc))?;
    assert_eq!(rt; write_words(&mut sink, "fault: words", &[]), Ok(()));
    assert_eq!(rt;
        write_words(&mut sink, "edge", &[0, 10, 9, 18_446_744_073_709_551_615]),
        Ok(())
    );
    let nine = [1, 2, 3, 4, 5, 6, 7, 8, 9];
    assert_eq!(rt; write_words(&mut sink, "nine", &nine), Ok(()));
    assert_eq!(rt; write_number(&mut sink, 120), Ok(()));
    let want = b"fault: words\nedge 0 10 9 18446744073709551615\nnine 1 2 3 4 5 6 7 8 9\n120";
    assert_eq!(rt; sink.held(), want.as_slice());
    Ok(())
}

#[test]
fn a_sink_that_fails_holds_a_front_of_the_line(rt: HostRuntime) -> Result<(), Fail> {
    let alloc: Global = rt.alloc();
    let mut sink = MemorySink::new(alloc, 100, 4, Vec::from_slice(alloc, &[2, 6])?)?;
    assert_eq!(rt;
        write_answer(&mut sink, 12, Some(3_456_789)),
        Err(io_edge::SinkFault)
    );
    assert_eq!(rt; sink.held(), b"12 34567".as_slice());
    assert_eq!(rt;
        write_words(&mut sink, "nodes", &[7, 1_234_567]),
        Err(io_edge::SinkFault)
    );
    assert_eq!(rt; sink.held(), b"12 34567nodes 7 1234".as_slice());
    Ok(())
}

#[test]
fn reports_have_four_counts_and_three_classes(rt: HostRuntime) -> Result<(), Fail> {
    let alloc: Global = rt.alloc();
    let mut sink = MemorySink::new(alloc, 200, 50, Vec::new(alloc))?;
    let report = Report {
        rounds: 3,
        packets: 0,
        bytes: 340_282_366_920_938_463_463_374_607_431_768_211_455,
        mirrors: 2,
        no_out: true,
        no_in: false,
        no_both: true,
    };
    assert_eq!(rt; write_report(&mut sink, &report), Ok(()));
    let want =
        b"rounds 3\npackets 0\nbytes 340282366920938463463374607431768211455\nmirrors 2\nno-out yes\nno-in no\nno-both yes\n";
    assert_eq!(rt; sink.held(), want.as_slice());
    Ok(())
}

#[test]
fn packets_stand_with_their_round_leg_hosts_and_bytes(rt: HostRuntime) -> Result<(), Fail> {
    let alloc: Global = rt.alloc();
    let mut sink = MemorySink::new(alloc, 100, 9, Vec::new(alloc))?;
    let reduce = ChannelSpec {
        leg: Leg::Reduce,
        from: 0,
        to: 1,
        room: 9,
    };
    let spread = ChannelSpec {
        leg: Leg::Spread,
        from: 63,
        to: 2,
        room: 1,
    };
    assert_eq!(rt;
        write_trace(&mut sink, 1, reduce, &[1, 5, 0xab, 0xff]),
        Ok(())
    );
    assert_eq!(rt; write_trace(&mut sink, 20, spread, &[3]), Ok(()));
    assert_eq!(rt; write_trace(&mut sink, 3, reduce, &[]), Ok(()));
    let want = b"round 1 reduce 0 1 0105abff\nround 20 spread 63 2 03\nround 3 reduce 0 1 \n";
    assert_eq!(rt; sink.held(), want.as_slice());
    Ok(())
}

#[test]
fn long_packets_go_out_piece_by_piece(rt: HostRuntime) -> Result<(), Fail> {
    let alloc: Global = rt.alloc();
    let mut sink = MemorySink::new(alloc, 20_000, 20_000, Vec::new(alloc))?;
    let spec = ChannelSpec {
        leg: Leg::Reduce,
        from: 0,
        to: 1,
        room: 9,
    };
    let payload = vec![in alloc; 0x5a; 4_500]?;
    assert_eq!(rt; write_trace(&mut sink, 1, spec, &payload), Ok(()));
    let line = sink.held();
    assert_eq!(rt; line.len(), 9_020);
    assert_eq!(rt; line.iter().filter(|byte| **byte == b'5').count(), 4_500);
    assert_eq!(rt; line.last(), Some(&b'\n'));
    Ok(())
}
