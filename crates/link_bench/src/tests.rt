//! Tests of the top call: worked examples, and a fault at each call of the source and of the sink.
use crate::bench;
use jesd_base::{MemSink, MemSource, Status};
use lane_threads::NoGate;
use std::alloc::Global;
use std::test::Fail;
use std::thread::Threads;

/// The status of these words, of which nothing is kept.
pub(crate) fn answer<R: Threads + Sync>(
    rt: &R,
    alloc: Global,
    words: &[&str],
    source: &mut MemSource,
    sink: &mut MemSink,
) -> Status {
    let mut kept = None;
    bench(rt, alloc, words, source, sink, &NoGate, &mut kept)
}

/// What comes of `words` on `input`: the status and the bytes written.
pub(crate) fn outcome<R: Threads + Sync>(
    rt: &R,
    alloc: Global,
    words: &[&str],
    input: &[u8],
) -> Result<(Status, Vec<u8>), Fail> {
    let mut source = MemSource::new(input.to_vec(alloc)?, 4096, Vec::new(alloc));
    let mut sink = MemSink::open(alloc, 4096, 4096, Vec::new(alloc))
        .ok()
        .ok_or("no memory")?;
    let status = answer(rt, alloc, words, &mut source, &mut sink);
    Ok((status, sink.bytes().to_vec(alloc)?))
}

const TWELVE_BITS: &[u8] = b"jesd,1\nlink,b,1,1,8,5,12,12,0,0,0,3,0\nframe,123,456,789,ABC,DEF\n";

const USAGE: &[u8] = b"usage: jesd_bench JOB [--workers N] [--number N]\n";

#[test]
fn worked_examples(rt: HostRuntime) -> Result<(), Fail> {
    let alloc = rt.alloc();
    let table: [(&[&str], &[u8], Status, &[u8]); 20] = [
        (
            &["map"],
            TWELVE_BITS,
            Status::Done,
            b"octets,123456789abcdef0\n",
        ),
        (
            &["unmap"],
            b"jesd,1\nlink,b,1,1,8,5,12,12,0,0,0,3,0\noctets,123456789abcdef0\n",
            Status::Done,
            b"frame,123,456,789,abc,def\n",
        ),
        (
            &["map", "--workers=3"],
            b"jesd,1\nlink,b,2,1,1,1,16,16,0,1,0,17,0\nframe,a55a\n",
            Status::Done,
            b"octets,a5,5a\n",
        ),
        (
            &["map"],
            b"jesd,1\nlink,b,2,1,1,1,16,16,0,0,0,17,0\nframe,a55a\n",
            Status::BadScenario,
            b"bad,2,8,9\n",
        ),
        (
            &["map"],
            b"jesd,1\nlink,b,1,1,2,1,14,16,3,0,0,9,0\n",
            Status::BadScenario,
            b"bad,2,8,8\n",
        ),
        (
            &["map"],
            b"jesd,1\nlink,b,1,1,1,1,8,8,0,0,0,16,0\n",
            Status::BadScenario,
            b"bad,2,8,11\n",
        ),
        (
            &["map"],
            b"jesd,1\nlink,b,1,1,1,1,8,8,0,0,0,17,0\n",
            Status::Done,
            b"",
        ),
        (&["map"], b"", Status::BadScenario, b"bad,0,1,0\n"),
        (&["map"], b"jesd,1\n", Status::BadScenario, b"bad,2,11,0\n"),
        (
            &["map"],
            b"jesd,1\nlink,b,1,1,8,5,12,12,0,0,0,3,0\nfoo,1\n",
            Status::BadScenario,
            b"bad,3,4,0\n",
        ),
        (
            &["map", "--workers", "0"],
            TWELVE_BITS,
            Status::BadWords,
            USAGE,
        ),
        (&["map", "map"], TWELVE_BITS, Status::BadWords, USAGE),
        (
            &["map", "--workers=2", "--workers=2"],
            TWELVE_BITS,
            Status::BadWords,
            USAGE,
        ),
        (&[], TWELVE_BITS, Status::BadWords, USAGE),
        (&["run"], TWELVE_BITS, Status::BadScenario, b"bad,3,3,0\n"),
        (
            &["run"],
            b"jesd,1\nlink,b,1,1,2,1,16,16,0,0,1,9,0\ntiming,18,2,8,8,0,1,1,1,1\nrun,4,none\n",
            Status::Done,
            b"link,18,1,1,1,850\nhunt,0\nend,4,0,0,0,0,0,0,0\n",
        ),
        (
            &["run"],
            b"jesd,1\nlink,b,1,1,2,1,16,16,0,0,1,9,0\ntiming,18,2,8,8,0,1,1,1,1\nrun,24,none\njitter,rx,1,32\n",
            Status::Alarmed,
            b"link,18,1,1,1,850\nhunt,0\nalarm,23,sysref_phase,rx,2\nend,24,0,0,0,0,0,1,0\n",
        ),
        (
            &["run"],
            b"jesd,1\nlink,ccrc,1,1,2,1,16,16,0,0,1,0,1\n",
            Status::BadScenario,
            b"bad,3,11,0\n",
        ),
        (&["gen", "gen"], TWELVE_BITS, Status::BadWords, USAGE),
        (
            &["--", "map"],
            TWELVE_BITS,
            Status::Done,
            b"octets,123456789abcdef0\n",
        ),
    ];
    for (at, (words, input, status, text)) in table.iter().enumerate() {
        let (got, written) = outcome(&rt, alloc, words, input)?;
        assert_eq!(rt; got, *status, "at {at}");
        assert_eq!(rt; written.as_slice(), *text, "at {at}");
    }
    Ok(())
}

/// The example has 64 bytes: with pieces of 16, four calls give them and a fifth says that they are
/// at their end.
#[test]
fn a_source_that_fails_on_each_call(rt: HostRuntime) -> Result<(), Fail> {
    let alloc = rt.alloc();
    for (piece, calls) in [(1, 65), (16, 5), (4096, 2)] {
        for call in 0..calls + 1 {
            let fails = vec![in alloc; call]?;
            let mut source = MemSource::new(TWELVE_BITS.to_vec(alloc)?, piece, fails);
            let mut sink = MemSink::open(alloc, 99, 99, Vec::new(alloc))
                .ok()
                .ok_or("no memory")?;
            let status = answer(&rt, alloc, &["map"], &mut source, &mut sink);
            if call < calls {
                assert_eq!(rt; status, Status::ReadFault, "piece {piece}, call {call}");
                assert_eq!(rt; sink.bytes().len(), 0);
            } else {
                assert_eq!(rt; status, Status::Done, "piece {piece}, call {call}");
                assert_eq!(rt; sink.bytes(), b"octets,123456789abcdef0\n".as_slice());
            }
        }
    }
    Ok(())
}

/// The line has 24 bytes: with pieces of 8, three calls take it.
#[test]
fn a_sink_that_fails_on_each_call(rt: HostRuntime) -> Result<(), Fail> {
    let alloc = rt.alloc();
    let line = b"octets,123456789abcdef0\n";
    for call in 0..4 {
        let fails = vec![in alloc; call]?;
        let mut source = MemSource::new(TWELVE_BITS.to_vec(alloc)?, 4096, Vec::new(alloc));
        let mut sink = MemSink::open(alloc, 99, 8, fails).ok().ok_or("no memory")?;
        let status = answer(&rt, alloc, &["map"], &mut source, &mut sink);
        let (want, due) = if call < 3 {
            (Status::WriteFault, &line[..8 * call as usize])
        } else {
            (Status::Done, line.as_slice())
        };
        assert_eq!(rt; status, want, "call {call}");
        assert_eq!(rt; sink.bytes(), due, "call {call}");
    }
    Ok(())
}

#[test]
fn one_byte_above_the_limit(rt: HostRuntime) -> Result<(), Fail> {
    let alloc = rt.alloc();
    let mut input = Vec::with_capacity(alloc, 4_194_305)?;
    for _ in 0..4_194_305u32 {
        input.push(b'a')?;
    }
    let mut source = MemSource::new(input, 1 << 20, Vec::new(alloc));
    let mut sink = MemSink::open(alloc, 99, 99, Vec::new(alloc))
        .ok()
        .ok_or("no memory")?;
    assert_eq!(rt;
        answer(&rt, alloc, &["map"], &mut source, &mut sink),
        Status::TooLong
    );
    assert_eq!(rt; sink.bytes().len(), 0);
    Ok(())
}
