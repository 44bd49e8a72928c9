//! Tests of whole runs, one in each mode.
ghost use Rattle.std.specs.Prelude.{◌≤◌, length};

use crate::bench::Bench;
use jesd_base::{MemSink, Status};
use lane_threads::NoGate;
use scenario::{Job, read_scenario};
use std::alloc::Global;
use std::test::Fail;
use std::thread::Threads;

// The status of the run, and what it wrote.
fn outcome<R: Threads + Sync>(
    rt: &R,
    alloc: Global,
    input: &[u8],
) -> Result<(Status, Vec<u8>), Fail>
    requires { length input.now ≤ 4194304 }
{
    let scenario = read_scenario(alloc, Job::Run, input).ok().ok_or("memory")?;
    if scenario.link.is_none() {
        return Err("no link".into());
    }
    let Ok(mut bench) = Bench::open(alloc, scenario, 1) else {
        return Err("memory".into());
    };
    let Ok(mut out) = MemSink::open(alloc, 4096, 4096, Vec::new(alloc)) else {
        return Err("memory".into());
    };
    let status = bench.run(rt, &mut out, &NoGate, false);
    Ok((status, out.bytes().to_vec(alloc)?))
}

#[test]
fn runs_in_each_mode(rt: HostRuntime) -> Result<(), Fail> {
    let alloc = rt.alloc();
    let table: [(&[u8], &[u8]); 3] = [
        (
            b"jesd,1\nlink,b,1,1,2,1,16,16,0,0,1,16,0\ntiming,128,2,8,120,7,20,5,5,20\nrun,560,none\n",
            b"link,32,27,27,23,1408\nhunt,0\narm,126\nrelease,190\nend,560,135,121,121,0,0,0,23\n",
        ),
        (
            b"jesd,1\nlink,ccrc,1,1,2,1,16,16,0,0,1,0,1\ntiming,64,2,8,8,7,10,0,1,8\nrun,270,none\n",
            b"link,32,74,592,10,1856\nhunt,0\narm,237\nrelease,269\nend,270,1068,4,4,0,0,0,10\n",
        ),
        (
            b"jesd,1\nlink,cfec,1,1,2,1,16,16,0,0,1,0,1\ntiming,64,2,8,8,7,10,0,1,8\nrun,270,none\n",
            b"link,32,74,592,10,1856\nhunt,0\narm,237\nrelease,269\nend,270,1068,4,4,0,0,0,10\n",
        ),
    ];
    for (input, text) in &table {
        let (status, written) = outcome(&rt, alloc, input)?;
        assert_eq!(rt; status, Status::Done);
        assert_eq!(rt; written.as_slice(), *text);
    }
    Ok(())
}
