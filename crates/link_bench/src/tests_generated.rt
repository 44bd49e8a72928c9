//! Tests of the job `gen`: numbers with the lines of a program that shares no code with this one,
//! an input that is not read, and a sink that fails.
use crate::tests::answer;
use jesd_base::{MemSink, MemSource, Status};
use std::alloc::Global;
use std::test::Fail;
use std::thread::Threads;

/// What comes of `words`: the status and the bytes written, by a sink that takes pieces of 8 bytes
/// and fails on the calls in `fails`. The source fails on its first call.
fn outcome<R: Threads + Sync>(
    rt: &R,
    alloc: Global,
    words: &[&str],
    fails: Vec<u32>,
) -> Result<(Status, Vec<u8>), Fail> {
    let mut source = MemSource::new(b"jesd,1\n".to_vec(alloc)?, 4096, vec![in alloc; 0u32]?);
    let mut sink = MemSink::open(alloc, 999, 8, fails).ok().ok_or("no memory")?;
    let status = answer(rt, alloc, words, &mut source, &mut sink);
    Ok((status, sink.bytes().to_vec(alloc)?))
}

/// Words, the status, and the two lines.
type Row = (&'static [&'static str], Status, &'static [u8]);

const TABLE: [Row; 8] = [
    // 64b/66b lanes with FEC
    (
        &["gen", "--number", "0"],
        Status::Done,
        b"link,64,92,736,28,2944\nend,16384,65524,62728,60616,2112,0,0,24\n",
    ),
    // the number of workers changes nothing
    (
        &["gen", "--number=0", "--workers", "3"],
        Status::Done,
        b"link,64,92,736,28,2944\nend,16384,65524,62728,60616,2112,0,0,24\n",
    ),
    (
        &["--workers=32", "--number=0", "gen"],
        Status::Done,
        b"link,64,92,736,28,2944\nend,16384,65524,62728,60616,2112,0,0,24\n",
    ),
    // without a number it is 1
    (
        &["gen"],
        Status::Done,
        b"link,32,68,544,4,1856\nend,16384,65512,64484,61984,2360,140,0,3\n",
    ),
    // 64b/66b lanes with CRC-12, whose frames are never fixed
    (
        &["gen", "--number", "2"],
        Status::Done,
        b"link,32,76,608,12,1856\nend,16384,65512,64452,62204,0,2248,0,12\n",
    ),
    // six alarms
    (
        &["gen", "--number", "13"],
        Status::Alarmed,
        b"link,96,84,672,20,4032\nend,16384,65256,61732,59492,0,2240,6,20\n",
    ),
    // 8b/10b lanes, and the greatest number
    (
        &["gen", "--number", "4294967295"],
        Status::Done,
        b"link,64,32,32,32,2432\nend,16384,7645,7580,7552,0,28,0,32\n",
    ),
    // 8b/10b lanes with one alarm
    (
        &["gen", "--number", "4294967206"],
        Status::Alarmed,
        b"link,64,5,5,5,2432\nend,16384,7427,7416,7395,0,21,1,5\n",
    ),
];

/// Each with a source that fails on its first call: nothing is read.
#[test]
fn numbers(rt: HostRuntime) -> Result<(), Fail> {
    let alloc = rt.alloc();
    for (at, (words, status, text)) in TABLE.iter().enumerate() {
        let (got, written) = outcome(&rt, alloc, words, Vec::new(alloc))?;
        assert_eq!(rt; got, *status, "at {at}");
        assert_eq!(rt; written.as_slice(), *text, "at {at}");
    }
    Ok(())
}

/// The two lines have 57 bytes: with pieces of 8, eight calls take them.
#[test]
fn a_sink_that_fails_on_each_call(rt: HostRuntime) -> Result<(), Fail> {
    let alloc = rt.alloc();
    let words = ["gen", "--number", "4294967295"];
    let text = TABLE[6].2;
    for call in 0..9 {
        let (got, written) = outcome(&rt, alloc, &words, vec![in alloc; call]?)?;
        let (want, due) = if call < 8 {
            (Status::WriteFault, &text[..8 * call as usize])
        } else {
            (Status::Done, text)
        };
        assert_eq!(rt; got, want, "call {call}");
        assert_eq!(rt; written.as_slice(), due, "call {call}");
    }
    Ok(())
}
