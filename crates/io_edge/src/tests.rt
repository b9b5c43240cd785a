//! Each object once through its trait, with a fault on the way.
use super::page_caller::write_twice;
use super::*;
use std::alloc::Global;
use std::io::{Error, ErrorKind, Read, Write};
use std::test::Fail;

fn read_from<S: Source>(source: &mut S, into: &mut [u8]) -> Result<usize, SourceFault> {
    source.read(into)
}

fn pick_of<P: Picker>(picker: &mut P) -> u32 {
    picker.start(9);
    picker.pick(3)
}

// Its second call is interrupted. The others give 2 bytes, and spoil what follows them in the piece.
#[derive(Drop)]
struct FlakyReader {
    calls: usize,
}

impl Read for FlakyReader {
    fn read(&mut self, buf: &mut [u8]) -> std::io::Result<usize> {
        self.calls = self.calls.saturating_add(1);
        if self.calls == 2 {
            return Err(Error::from(ErrorKind::Interrupted));
        }
        for byte in buf.iter_mut() {
            *byte = b'x';
        }
        Ok(buf.len().min(2))
    }
}

// Its second call fails, its third takes nothing, and the others take at most 2 bytes, which it keeps.
#[derive(Drop)]
struct FlakyWriter<'a> {
    calls: usize,
    taken: &'a mut Vec<u8>,
}

impl Write for FlakyWriter<'_> {
    fn write(&mut self, buf: &[u8]) -> std::io::Result<usize> {
        self.calls = self.calls.saturating_add(1);
        match self.calls {
            2 => Err(Error::from(ErrorKind::BrokenPipe)),
            3 => Ok(0),
            _ => {
                let count = buf.len().min(2);
                self.taken.extend_from_slice(&buf[..count])?;
                Ok(count)
            }
        }
    }

    fn flush(&mut self) -> std::io::Result<()> {
        Ok(())
    }
}

#[test]
fn std_source_passes_bytes_on_and_reports_an_error(rt: HostRuntime) {
    let mut source = StdSource::new(FlakyReader { calls: 0 });
    let mut into = *b"abcd";
    assert_eq!(rt; read_from(&mut source, &mut into), Ok(2));
    assert_eq!(rt; into, *b"xxcd");
    assert_eq!(rt; read_from(&mut source, &mut into), Err(SourceFault));
    assert_eq!(rt; read_from(&mut source, &mut into[..1]), Ok(1));
}

#[test]
fn std_sink_passes_bytes_on_and_takes_an_error_and_an_empty_write_for_faults(rt: HostRuntime) {
    let mut taken = Vec::new(rt.alloc());
    let mut sink = StdSink::new(FlakyWriter {
        calls: 0,
        taken: &mut taken,
    });
    assert_eq!(rt; write_whole(&mut sink, b"ab"), Ok(()));
    assert_eq!(rt; write_whole(&mut sink, b"ab"), Err(SinkFault));
    assert_eq!(rt; write_whole(&mut sink, b"ab"), Err(SinkFault));
    assert_eq!(rt; write_whole(&mut sink, b"cdefg"), Ok(()));
    drop(sink);
    assert_eq!(rt; taken.as_slice(), b"abcdefg".as_slice());
}

#[test]
fn memory_source_gives_short_pieces_and_fails_where_listed(rt: HostRuntime) -> Result<(), Fail> {
    let alloc: Global = rt.alloc();
    let mut source = MemorySource::new(
        Vec::from_slice(alloc, b"abcde")?,
        2,
        Vec::from_slice(alloc, &[1])?,
    );
    let mut into = *b"....";
    for (want, text) in [
        (Ok(2), b"ab.."),
        (Err(SourceFault), b"ab.."),
        (Ok(2), b"cd.."),
        (Ok(1), b"ed.."),
        (Ok(0), b"ed.."),
    ] {
        assert_eq!(rt; read_from(&mut source, &mut into), want);
        assert_eq!(rt; into, *text);
    }
    Ok(())
}

#[test]
fn plain_source_gives_all_that_fits(rt: HostRuntime) -> Result<(), Fail> {
    let mut source = PlainSource::new(Vec::from_slice(rt.alloc(), b"abcde")?);
    let mut into = *b"....";
    assert_eq!(rt; read_from(&mut source, &mut into), Ok(4));
    assert_eq!(rt; into, *b"abcd");
    assert_eq!(rt; read_from(&mut source, &mut into), Ok(1));
    assert_eq!(rt; into, *b"ebcd");
    Ok(())
}

#[test]
fn memory_sink_holds_what_was_written_up_to_a_fault(rt: HostRuntime) -> Result<(), Fail> {
    let alloc: Global = rt.alloc();
    let mut sink = MemorySink::new(alloc, 7, 2, Vec::from_slice(alloc, &[3])?)?;
    assert_eq!(rt; write_whole(&mut sink, b"abc"), Ok(()));
    assert_eq!(rt; write_whole(&mut sink, b"defg"), Err(SinkFault));
    assert_eq!(rt; sink.held(), b"abcde".as_slice());
    assert_eq!(rt; write_whole(&mut sink, b"fgh"), Err(SinkFault));
    assert_eq!(rt; sink.held(), b"abcdefg".as_slice());
    assert_eq!(rt; write_whole(&mut sink, b""), Ok(()));
    Ok(())
}

#[test]
fn page_passes_on_what_waits_by_flush_and_loses_nothing_to_a_fault(
    rt: HostRuntime,
) -> Result<(), Fail> {
    let alloc: Global = rt.alloc();
    let mut sink = MemorySink::new(alloc, 100, 4, Vec::from_slice(alloc, &[1])?)?;
    let mut page = PagedSink::new(&mut sink);
    assert_eq!(rt; write_whole(&mut page, b"abc"), Ok(()));
    assert_eq!(rt; write_whole(&mut page, b"defg"), Ok(()));
    assert_eq!(rt; page.flush(), Err(SinkFault));
    assert_eq!(rt; write_whole(&mut page, b"hi"), Ok(()));
    assert_eq!(rt; page.flush(), Ok(()));
    assert_eq!(rt; write_whole(&mut page, b"j"), Ok(()));
    assert_eq!(rt; sink.held(), b"abcdefghi".as_slice());
    Ok(())
}

#[test]
fn page_passes_on_a_full_page_and_a_larger_piece(rt: HostRuntime) -> Result<(), Fail> {
    let alloc: Global = rt.alloc();
    let mut sink = MemorySink::new(alloc, 30_000, 9_000, Vec::new(alloc))?;
    let long = vec![in alloc; b'a'; 10_000]?;
    let mut page = PagedSink::new(&mut sink);
    for end in [8_000, 8_000, 10_000, 1] {
        if end <= long.len() {
            assert_eq!(rt; write_whole(&mut page, &long[..end]), Ok(()));
        }
    }
    assert_eq!(rt; sink.held().len(), 25_000);
    Ok(())
}

#[test]
fn caller_of_a_page_leaves_both_pieces_below(rt: HostRuntime) -> Result<(), Fail> {
    let alloc: Global = rt.alloc();
    let mut sink = MemorySink::new(alloc, 9, 4, Vec::new(alloc))?;
    assert_eq!(rt; write_twice(&mut sink, b"abc", b"de"), Ok(()));
    assert_eq!(rt; write_twice(&mut sink, b"fg", b"hijk"), Err(SinkFault));
    assert_eq!(rt; sink.held(), b"abcdefghi".as_slice());
    Ok(())
}

#[test]
fn first_and_last_picks_give_the_first_and_the_last(rt: HostRuntime) {
    assert_eq!(rt; pick_of(&mut FirstPicks), 0);
    assert_eq!(rt; pick_of(&mut LastPicks), 2);
}

#[test]
fn listed_picks_give_their_list_and_then_0(rt: HostRuntime) -> Result<(), Fail> {
    let mut picker = ListedPicks::new(Vec::from_slice(rt.alloc(), &[7, 5])?);
    assert_eq!(rt; picker.begun(), None);
    for (pick, asked, choices) in [(7, 1, 3), (5, 2, 6), (0, 3, 9)] {
        assert_eq!(rt; pick_of(&mut picker), pick);
        assert_eq!(rt; picker.begun(), Some(9));
        assert_eq!(rt; picker.asked(), asked);
        assert_eq!(rt; picker.choices(), choices);
    }
    Ok(())
}

// The words that SplitMix64's own program gives from 1234567 on, and that it gives first from 0 on.
#[test]
fn mixed_picks_are_the_low_halves_of_splitmix64(rt: HostRuntime) {
    let mut picker = MixedPicks::new();
    assert_eq!(rt; picker.pick(3), 0x7b1d_cdaf);
    picker.start(1_234_567);
    for word in [
        6_457_827_717_110_365_317_u64,
        3_203_168_211_198_807_973,
        9_817_491_932_198_370_423,
        4_593_380_528_125_082_431,
        16_408_922_859_458_223_821,
    ] {
        assert_eq!(rt; picker.pick(2), (word % 0x1_0000_0000) as u32);
    }
}
