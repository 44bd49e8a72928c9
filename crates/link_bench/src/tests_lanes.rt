//! Runs of links with several lanes: worked examples, with the reports of a program that shares no
//! code with this one.
use crate::tests::{answer, outcome};
use jesd_base::{MemSink, MemSource, Status};
use std::test::Fail;

/// An input, the status, and the whole report.
type Row = (&'static [u8], Status, &'static [u8]);

const TABLE: [Row; 12] = [
    // two lanes come up and deliver nine frames
    (
        b"jesd,1\nlink,b,2,2,2,1,16,16,0,0,1,32,0\ntiming,128,2,8,120,7,20,5,5,20\nrun,560,frames\ndelay,0,0,50\ndelay,0,1,200\n",
        Status::Done,
        b"link,64,27,27,23,2432\nhunt,0\narm,222\nrelease,286\nframe,542,ok,0000,0001\nframe,544,ok,0002,0003\nframe,546,ok,0004,0005\nframe,548,ok,0006,0007\nframe,550,ok,0008,0009\nframe,552,ok,000a,000b\nframe,554,ok,000c,000d\nframe,556,ok,000e,000f\nframe,558,ok,0010,0011\nend,560,23,9,9,0,0,0,23\n",
    ),
    // a reset of the receiver with the delays exchanged: the latency is the same
    (
        b"jesd,1\nlink,b,2,2,2,1,16,16,0,0,1,32,0\ntiming,128,2,8,120,7,20,5,5,20\nrun,1190,frames\ndelay,0,0,50\ndelay,0,1,200\nreset,560,rx\ndelay,560,0,200\ndelay,560,1,50\n",
        Status::Done,
        b"link,64,27,27,23,2432\nhunt,0\narm,222\nrelease,286\nframe,542,ok,0000,0001\nframe,544,ok,0002,0003\nframe,546,ok,0004,0005\nframe,548,ok,0006,0007\nframe,550,ok,0008,0009\nframe,552,ok,000a,000b\nframe,554,ok,000c,000d\nframe,556,ok,000e,000f\nframe,558,ok,0010,0011\nhunt,560\narm,862\nrelease,926\nframe,1182,ok,0034,0035\nframe,1184,ok,0036,0037\nframe,1186,ok,0038,0039\nframe,1188,ok,003a,003b\nend,1190,44,13,13,0,0,0,23\n",
    ),
    // lane 1 arrives a tick after its window
    (
        b"jesd,1\nlink,b,2,2,2,1,16,16,0,0,1,32,0\ntiming,128,2,8,120,7,20,5,5,20\nrun,287,frames\ndelay,0,0,50\ndelay,0,1,210\n",
        Status::Alarmed,
        b"link,64,27,27,23,2432\nhunt,0\narm,222\nalarm,286,lane_window,1,21\nhunt,286\nend,287,0,0,0,0,0,1,23\n",
    ),
    // lane 1 arrives a tick before its window
    (
        b"jesd,1\nlink,b,2,2,2,1,16,16,0,0,1,32,0\ntiming,128,2,8,120,7,20,5,5,20\nrun,287,frames\ndelay,0,0,50\ndelay,0,1,40\n",
        Status::Alarmed,
        b"link,64,27,27,23,2432\nhunt,0\narm,222\nalarm,286,lane_window,1,4\nhunt,286\nend,287,0,0,0,0,0,1,23\n",
    ),
    // lane 1 has not arrived at the decision
    (
        b"jesd,1\nlink,b,2,2,2,1,16,16,0,0,1,32,0\ntiming,128,2,8,120,7,20,5,5,20\nrun,287,frames\ndelay,0,0,50\ndelay,0,1,300\n",
        Status::Alarmed,
        b"link,64,27,27,23,2432\nhunt,0\narm,222\nalarm,286,lane_missing,1\nhunt,286\nend,287,0,0,0,0,0,1,23\n",
    ),
    // a transmitter that is reset while the receiver waits
    (
        b"jesd,1\nlink,b,2,2,2,1,16,16,0,0,1,32,0\ntiming,128,2,8,120,7,20,5,5,20\nrun,1312,frames\ndelay,0,0,50\ndelay,0,1,200\nreset,229,tx\n",
        Status::Alarmed,
        b"link,64,27,27,23,2432\nhunt,0\narm,222\nalarm,734,start_timeout\nhunt,734\narm,990\nrelease,1054\nframe,1310,ok,0000,0001\nend,1312,15,1,1,0,0,1,23\n",
    ),
    // an edge half a tick early
    (
        b"jesd,1\nlink,b,2,2,2,1,16,16,0,0,1,32,0\ntiming,128,2,8,120,7,20,5,5,20\nrun,140,frames\ndelay,0,0,50\ndelay,0,1,200\njitter,tx,0,-8\n",
        Status::Alarmed,
        b"link,64,27,27,23,2432\nhunt,0\nalarm,131,sysref_phase,tx,1\nend,140,0,0,0,0,0,1,0\n",
    ),
    // one bad character without scrambling: one frame is bad
    (
        b"jesd,1\nlink,b,2,2,2,1,16,16,0,0,0,32,0\ntiming,128,2,8,120,7,20,5,5,20\nrun,595,frames\ndelay,0,0,50\ndelay,0,1,200\nframe,b5b5,b5b5\nframe,b54a,b54a\ndead,580,1,1\ndead,581,1,0\n",
        Status::Done,
        b"link,64,27,27,23,2432\nhunt,0\narm,222\nrelease,286\nframe,542,ok,b5b5,b5b5\nframe,544,ok,b54a,b54a\nframe,546,ok,b5b5,b5b5\nframe,548,ok,b54a,b54a\nframe,550,ok,b5b5,b5b5\nframe,552,ok,b54a,b54a\nframe,554,ok,b5b5,b5b5\nframe,556,ok,b54a,b54a\nframe,558,ok,b5b5,b5b5\nframe,560,ok,b54a,b54a\nframe,562,ok,b5b5,b5b5\nframe,564,ok,b54a,b54a\nframe,566,ok,b5b5,b5b5\nframe,568,ok,b54a,b54a\nframe,570,ok,b5b5,b5b5\nframe,572,ok,b54a,b54a\nframe,574,ok,b5b5,b5b5\nframe,576,ok,b54a,b54a\nframe,578,ok,b5b5,b5b5\nframe,580,ok,b54a,b54a\nframe,582,ok,b5b5,b5b5\nframe,584,ok,b54a,b54a\nframe,586,bad,b5b5,b500\nframe,588,ok,b54a,b54a\nframe,590,ok,b5b5,b5b5\nframe,592,ok,b54a,b54a\nend,595,40,26,25,0,1,0,23\n",
    ),
    // the same with scrambling: two frames are bad
    (
        b"jesd,1\nlink,b,2,2,2,1,16,16,0,0,1,32,0\ntiming,128,2,8,120,7,20,5,5,20\nrun,595,frames\ndelay,0,0,50\ndelay,0,1,200\nframe,b5b5,b5b5\nframe,b54a,b54a\ndead,580,1,1\ndead,581,1,0\n",
        Status::Done,
        b"link,64,27,27,23,2432\nhunt,0\narm,222\nrelease,286\nframe,542,ok,b5b5,b5b5\nframe,544,ok,b54a,b54a\nframe,546,ok,b5b5,b5b5\nframe,548,ok,b54a,b54a\nframe,550,ok,b5b5,b5b5\nframe,552,ok,b54a,b54a\nframe,554,ok,b5b5,b5b5\nframe,556,ok,b54a,b54a\nframe,558,ok,b5b5,b5b5\nframe,560,ok,b54a,b54a\nframe,562,ok,b5b5,b5b5\nframe,564,ok,b54a,b54a\nframe,566,ok,b5b5,b5b5\nframe,568,ok,b54a,b54a\nframe,570,ok,b5b5,b5b5\nframe,572,ok,b54a,b54a\nframe,574,ok,b5b5,b5b5\nframe,576,ok,b54a,b54a\nframe,578,ok,b5b5,b5b5\nframe,580,ok,b54a,b54a\nframe,582,ok,b5b5,b5b5\nframe,584,ok,b54a,b54a\nframe,586,bad,b5b5,b5fd\nframe,588,bad,b54a,b4fa\nframe,590,ok,b5b5,b5b5\nframe,592,ok,b54a,b54a\nend,595,40,26,24,0,2,0,23\n",
    ),
    // a lane that dies while frames are delivered
    (
        b"jesd,1\nlink,b,2,2,2,1,16,16,0,0,1,32,0\ntiming,128,2,8,120,7,20,5,5,20\nrun,610,frames\ndelay,0,0,50\ndelay,0,1,200\ndead,600,1,1\n",
        Status::Alarmed,
        b"link,64,27,27,23,2432\nhunt,0\narm,222\nrelease,286\nframe,542,ok,0000,0001\nframe,544,ok,0002,0003\nframe,546,ok,0004,0005\nframe,548,ok,0006,0007\nframe,550,ok,0008,0009\nframe,552,ok,000a,000b\nframe,554,ok,000c,000d\nframe,556,ok,000e,000f\nframe,558,ok,0010,0011\nframe,560,ok,0012,0013\nframe,562,ok,0014,0015\nframe,564,ok,0016,0017\nframe,566,ok,0018,0019\nframe,568,ok,001a,001b\nframe,570,ok,001c,001d\nframe,572,ok,001e,001f\nframe,574,ok,0020,0021\nframe,576,ok,0022,0023\nframe,578,ok,0024,0025\nframe,580,ok,0026,0027\nframe,582,ok,0028,0029\nframe,584,ok,002a,002b\nframe,586,ok,002c,002d\nframe,588,ok,002e,002f\nframe,590,ok,0030,0031\nframe,592,ok,0032,0033\nframe,594,ok,0034,0035\nframe,596,ok,0036,0037\nframe,598,ok,0038,0039\nframe,600,ok,003a,003b\nframe,602,ok,003c,003d\nframe,604,ok,003e,003f\nalarm,606,lane_lost,1\nhunt,606\nend,610,48,32,32,0,0,1,23\n",
    ),
    // a lane that is dead from the start
    (
        b"jesd,1\nlink,b,2,2,2,1,16,16,0,0,1,32,0\ntiming,128,2,8,120,7,20,5,5,20\nrun,1000,frames\ndelay,0,0,50\ndelay,0,1,200\ndead,0,1,1\n",
        Status::Alarmed,
        b"link,64,27,27,23,2432\nhunt,0\nalarm,990,no_lock,1\nend,1000,0,0,0,0,0,1,0\n",
    ),
    // all bits of a lane inverted
    (
        b"jesd,1\nlink,b,2,2,2,1,16,16,0,0,1,32,0\ntiming,128,2,8,120,7,20,5,5,20\nrun,560,frames\ndelay,0,0,50\ndelay,0,1,200\nflip,0,0,5600\n",
        Status::Alarmed,
        b"link,64,27,27,23,2432\nhunt,0\narm,222\nrelease,286\nalarm,350,config_mismatch,0,8\nhunt,350\nend,560,0,0,0,0,0,1,23\n",
    ),
];

#[test]
fn runs_of_several_lanes(rt: HostRuntime) -> Result<(), Fail> {
    let alloc = rt.alloc();
    for (at, (input, status, text)) in TABLE.iter().enumerate() {
        let (got, written) = outcome(&rt, alloc, &["run"], input)?;
        assert_eq!(rt; got, *status, "at {at}");
        assert_eq!(rt; written.as_slice(), *text, "at {at}");
    }
    Ok(())
}

/// A link of four lanes with samples of 14 bits and two control bits, and forty inverted bits on
/// lane 2.
const CONVERTER: &[u8] =
    b"jesd,1\nlink,b,4,4,2,1,14,16,2,0,1,32,0\ntiming,128,2,8,120,7,20,5,5,20\nrun,10000,frames\nramp,0,4\nflip,2,60000,40\n";

const FIRST_LINES: &[u8] =
    b"link,64,27,27,23,2432\nhunt,0\narm,222\nrelease,286\nframe,542,ok,0000,0004,0008,000c\n";

const LAST_LINE: &[u8] = b"end,10000,4743,4729,4725,0,4,0,23\n";

/// The report of a longer run begins and ends as it is due; four of its 4,729 frames are bad.
#[test]
fn a_run_of_four_lanes(rt: HostRuntime) -> Result<(), Fail> {
    let alloc = rt.alloc();
    let mut source = MemSource::new(CONVERTER.to_vec(alloc)?, 4096, Vec::new(alloc));
    let mut sink = MemSink::open(alloc, 200_000, 4096, Vec::new(alloc))
        .ok()
        .ok_or("no memory")?;
    assert_eq!(rt;
        answer(&rt, alloc, &["run"], &mut source, &mut sink),
        Status::Done
    );
    assert!(rt; sink.bytes().starts_with(FIRST_LINES));
    assert!(rt; sink.bytes().ends_with(LAST_LINE));
    Ok(())
}
