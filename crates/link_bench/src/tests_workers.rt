//! Runs on several workers: the same bytes, and the lanes that are kept.
use crate::bench;
use crate::tests::outcome;
use jesd_base::{MemSink, MemSource, Status};
use lane_threads::{Gate, LanePair, NoGate};
use std::alloc::Global;
use std::sync::atomic::{AtomicBool, Ordering};
use std::test::Fail;
use std::thread::Threads;

/// Two lanes that come up and deliver nine frames.
const TWO_LANES: &[u8] =
    b"jesd,1\nlink,b,2,2,2,1,16,16,0,0,1,32,0\ntiming,128,2,8,120,7,20,5,5,20\nrun,560,frames\ndelay,0,0,50\ndelay,0,1,200\n";

/// The same bytes with 1, 3 and 32 workers.
#[test]
fn workers_change_nothing(rt: HostRuntime) -> Result<(), Fail> {
    let alloc = rt.alloc();
    let (status, text) = outcome(&rt, alloc, &["run"], TWO_LANES)?;
    assert_eq!(rt; status, Status::Done);
    for workers in ["2", "3", "32"] {
        let words = ["run", "--workers", workers];
        let (got, written) = outcome(&rt, alloc, &words, TWO_LANES)?;
        assert_eq!(rt; got, status, "on {workers}");
        assert_eq!(rt; written.as_slice(), text.as_slice(), "on {workers}");
    }
    Ok(())
}

/// The most entries that a lane held, the tick in which it started, and the room of its ring.
type Seen = (u32, Option<u32>, u32);

fn seen(lane: &LanePair) -> Seen {
    (lane.fullest(), lane.report().started, lane.room())
}

fn lanes_after<R: Threads + Sync>(rt: &R, alloc: Global) -> Result<[Seen; 2], Fail> {
    let mut source = MemSource::new(TWO_LANES.to_vec(alloc)?, 4096, Vec::new(alloc));
    let mut sink = MemSink::open(alloc, 4096, 4096, Vec::new(alloc))
        .ok()
        .ok_or("no memory")?;
    let mut kept = None;
    let words = ["run", "--workers", "2"];
    let _ = bench(
        rt,
        alloc,
        &words,
        &mut source,
        &mut sink,
        &NoGate,
        &mut kept,
    );
    let Some(bench) = kept else {
        return Err("no bench".into());
    };
    let [first, second] = bench.lanes() else {
        return Err("not two lanes".into());
    };
    Ok([seen(first), seen(second)])
}

/// The lanes that are kept made the run: each one gave eighteen cells in 560 ticks.
#[test]
fn lanes_that_ran(rt: HostRuntime) -> Result<(), Fail> {
    let alloc = rt.alloc();
    let lanes = lanes_after(&rt, alloc)?;
    assert_eq!(rt; lanes[0], (23, Some(5), 542));
    assert_eq!(rt; lanes[1], (8, Some(20), 542));
    Ok(())
}

/// A gate at which each of two lanes looks for the other, at its first pass.
#[derive(Drop)]
struct Meeting {
    here: [AtomicBool; 2],
    passed: [AtomicBool; 2],
    met: [AtomicBool; 2],
}

impl Gate for Meeting {
    fn pass(&self, lane: u32) {
        let own = usize::from(lane != 0);
        if self.passed[own].swap(true, Ordering::SeqCst) {
            return;
        }
        self.here[own].store(true, Ordering::SeqCst);
        for _ in 0..10_000_000 {
            if self.here[1 - own].load(Ordering::SeqCst) {
                self.met[own].store(true, Ordering::SeqCst);
                return;
            }
        }
    }
}

fn have_met<R: Threads + Sync>(rt: &R, alloc: Global, words: &[&str]) -> Result<bool, Fail> {
    let off = || [AtomicBool::new(false), AtomicBool::new(false)];
    let gate = Meeting {
        here: off(),
        passed: off(),
        met: off(),
    };
    let mut source = MemSource::new(TWO_LANES.to_vec(alloc)?, 4096, Vec::new(alloc));
    let mut sink = MemSink::open(alloc, 4096, 4096, Vec::new(alloc))
        .ok()
        .ok_or("no memory")?;
    let mut kept = None;
    let _ = bench(rt, alloc, words, &mut source, &mut sink, &gate, &mut kept);
    Ok(gate.met[0].load(Ordering::SeqCst) && gate.met[1].load(Ordering::SeqCst))
}

/// With two workers both lanes run at one time, and with one never.
#[test]
fn workers_overlap(rt: HostRuntime) -> Result<(), Fail> {
    let alloc = rt.alloc();
    assert!(rt; have_met(&rt, alloc, &["run", "--workers", "2"])?);
    assert!(rt; !have_met(&rt, alloc, &["run"])?);
    Ok(())
}
