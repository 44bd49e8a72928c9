//! Tests of the job `run`: a record of each kind on a link with one lane, and a source and a sink
//! that fail.
use crate::tests::{answer, outcome};
use jesd_base::{MemSink, MemSource, Status};
use std::test::Fail;

const TWO_LANES: &[u8] =
    b"jesd,1\nlink,b,2,2,2,1,16,16,0,0,1,32,0\ntiming,128,2,8,120,7,20,5,5,20\nrun,560,frames\ndelay,0,0,50\ndelay,0,1,200\n";

#[test]
fn runs_of_one_lane(rt: HostRuntime) -> Result<(), Fail> {
    let alloc = rt.alloc();
    let table: [(&[u8], Status, &[u8]); 10] = [
        (
            b"jesd,1\nlink,b,1,1,2,1,16,16,0,0,1,32,0\ntiming,128,2,8,120,7,20,5,5,20\nrun,560,frames\n",
            Status::Done,
            b"link,64,27,27,23,2432\nhunt,0\narm,222\nrelease,286\nframe,542,ok,0000\nframe,544,ok,0001\nframe,546,ok,0002\nframe,548,ok,0003\nframe,550,ok,0004\nframe,552,ok,0005\nframe,554,ok,0006\nframe,556,ok,0007\nframe,558,ok,0008\nend,560,23,9,9,0,0,0,23\n",
        ),
        (
            b"jesd,1\nlink,b,1,1,2,1,16,16,0,0,1,32,0\ntiming,128,2,8,120,7,20,5,5,20\nrun,1312,frames\nreset,229,tx\n",
            Status::Alarmed,
            b"link,64,27,27,23,2432\nhunt,0\narm,222\nalarm,734,start_timeout\nhunt,734\narm,990\nrelease,1054\nframe,1310,ok,0000\nend,1312,15,1,1,0,0,1,23\n",
        ),
        (
            b"jesd,1\nlink,b,1,1,2,1,16,16,0,0,1,32,0\ntiming,128,2,8,120,7,20,5,5,20\nrun,900,none\nreset,400,rx\n",
            Status::Done,
            b"link,64,27,27,23,2432\nhunt,0\narm,222\nrelease,286\nhunt,400\narm,734\nrelease,798\nend,900,0,0,0,0,0,0,23\n",
        ),
        (
            b"jesd,1\nlink,b,1,1,2,1,16,16,0,0,1,32,0\ntiming,128,2,8,120,7,20,5,5,20\nrun,548,all\nramp,256,3\n",
            Status::Done,
            b"link,64,27,27,23,2432\nhunt,0\narm,222\nrelease,286\nenter,515,0100\nenter,517,0103\nenter,519,0106\nenter,521,0109\nenter,523,010c\nenter,525,010f\nenter,527,0112\nenter,529,0115\nenter,531,0118\nenter,533,011b\nenter,535,011e\nenter,537,0121\nenter,539,0124\nenter,541,0127\nenter,543,012a\nframe,542,ok,0100\nenter,545,012d\nframe,544,ok,0103\nenter,547,0130\nframe,546,ok,0106\nend,548,17,3,3,0,0,0,23\n",
        ),
        (
            b"jesd,1\nlink,b,1,1,2,1,16,16,0,0,1,32,0\ntiming,128,2,8,120,7,20,5,5,20\nrun,548,frames\nframe,0012\nframe,beef\n",
            Status::Done,
            b"link,64,27,27,23,2432\nhunt,0\narm,222\nrelease,286\nframe,542,ok,0012\nframe,544,ok,beef\nframe,546,ok,0012\nend,548,17,3,3,0,0,0,23\n",
        ),
        (
            b"jesd,1\nlink,b,1,1,2,1,16,16,0,0,1,32,0\ntiming,128,2,8,120,7,20,5,5,20\nrun,548,frames\ndelay,0,0,200\n",
            Status::Done,
            b"link,64,27,27,23,2432\nhunt,0\narm,222\nrelease,286\nframe,542,ok,0000\nframe,544,ok,0001\nframe,546,ok,0002\nend,548,17,3,3,0,0,0,8\n",
        ),
        (
            b"jesd,1\nlink,b,1,1,2,1,16,16,0,0,1,32,0\ntiming,128,2,8,120,7,20,5,5,20\nrun,548,none\njitter,rx,2,-8\n",
            Status::Alarmed,
            b"link,64,27,27,23,2432\nhunt,0\narm,222\nalarm,265,sysref_phase,rx,63\nrelease,286\nend,548,17,3,3,0,0,1,23\n",
        ),
        (
            b"jesd,1\nlink,b,1,1,2,1,16,16,0,0,1,32,0\ntiming,128,2,8,120,7,20,5,5,20\nrun,560,frames\nflip,0,0,5600\n",
            Status::Alarmed,
            b"link,64,27,27,23,2432\nhunt,0\narm,222\nrelease,286\nalarm,350,config_mismatch,0,8\nhunt,350\nend,560,0,0,0,0,0,1,23\n",
        ),
        (
            b"jesd,1\nlink,b,1,1,2,1,16,16,0,0,1,32,0\ntiming,128,2,8,120,7,20,5,5,20\nrun,700,none\ndead,400,0,1\n",
            Status::Alarmed,
            b"link,64,27,27,23,2432\nhunt,0\narm,222\nrelease,286\nalarm,414,lane_lost,0\nhunt,414\nend,700,0,0,0,0,0,1,23\n",
        ),
        (
            b"jesd,1\nlink,b,1,1,2,1,16,16,0,0,1,32,0\ntiming,128,2,8,120,7,20,5,20,30\nrun,560,frames\n",
            Status::BadScenario,
            b"bad,3,8,17\n",
        ),
    ];
    for (at, (input, status, text)) in table.iter().enumerate() {
        let (got, written) = outcome(&rt, alloc, &["run"], input)?;
        assert_eq!(rt; got, *status, "at {at}");
        assert_eq!(rt; written.as_slice(), *text, "at {at}");
    }
    Ok(())
}

/// On a link with two lanes: the second call of the source, and the fourth of the sink.
#[test]
fn streams_that_fail(rt: HostRuntime) -> Result<(), Fail> {
    let alloc = rt.alloc();
    let mut source = MemSource::new(TWO_LANES.to_vec(alloc)?, 16, vec![in alloc; 1u32]?);
    let mut sink = MemSink::open(alloc, 999, 999, Vec::new(alloc))
        .ok()
        .ok_or("no memory")?;
    assert_eq!(rt;
        answer(&rt, alloc, &["run"], &mut source, &mut sink),
        Status::ReadFault
    );
    assert_eq!(rt; sink.bytes().len(), 0);
    let mut source = MemSource::new(TWO_LANES.to_vec(alloc)?, 4096, Vec::new(alloc));
    let mut sink = MemSink::open(alloc, 999, 8, vec![in alloc; 3u32]?)
        .ok()
        .ok_or("no memory")?;
    assert_eq!(rt;
        answer(&rt, alloc, &["run"], &mut source, &mut sink),
        Status::WriteFault
    );
    assert_eq!(rt; sink.bytes(), b"link,64,27,27,23,2432\nhu".as_slice());
    Ok(())
}
