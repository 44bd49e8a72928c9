//! Tests of rows that are handed on.
ghost use Rattle.std.specs.Prelude.{◌≤◌, None, length};

use crate::bench::{Bench, Played};
use crate::frame_list::FrameList;
use crate::rows::Rows;
use jesd_base::Failed;
use lane_threads::{Gate, NoGate};
use link_params::Mark;
use scenario::{Job, Row, Scenario, read_scenario};
use std::alloc::Global;
use std::sync::atomic::{AtomicU32, Ordering};
use std::test::Fail;

/// Two lanes that come up and deliver nine frames.
const TWO_LANES: &[u8] =
    b"jesd,1\nlink,b,2,2,2,1,16,16,0,0,1,32,0\ntiming,128,2,8,120,7,20,5,5,20\nrun,560,frames\ndelay,0,0,50\ndelay,0,1,200\n";

// The scenario of an input that is accepted.
fn read(alloc: Global, input: &[u8]) -> Result<Scenario, Fail>
    requires { length input.now ≤ 4194304 }
{
    Ok(read_scenario(alloc, Job::Run, input).ok().ok_or("refused")?)
}

/// The frames of a run and its totals, in memory.
#[test]
fn frames_in_memory(rt: HostRuntime) -> Result<(), Fail> {
    let alloc = rt.alloc();
    let scenario = read(alloc, TWO_LANES)?;
    let Some(link) = scenario.link else {
        return Err("no link".into());
    };
    // for what it ensures: a frame has at most 8,192 words
    let _words = link.shape().frame_words();
    let Ok(mut frames) = FrameList::open(alloc, &link, 9) else {
        return Err("memory".into());
    };
    let Ok(mut bench) = Bench::open(alloc, scenario, 1) else {
        return Err("memory".into());
    };
    assert_eq!(rt; bench.play(&rt, &mut frames, &NoGate, false), Played::Quiet);
    assert_eq!(rt; frames.len(), 9);
    if frames.len() == 9 {
        assert_eq!(rt; frames.left(8), 558);
        assert_eq!(rt; frames.mark(8), Mark::Ok);
        assert_eq!(rt; frames.words(8), [16, 17].as_slice());
    }
    assert_eq!(rt; frames.totals().map(|totals| totals.delivered), Some(9));
    Ok(())
}

/// A usual converter of four lanes, one of which has forty bits inverted.
const FOUR_LANES: &[u8] =
    b"jesd,1\nlink,b,4,4,2,1,14,16,2,0,1,32,0\ntiming,128,2,8,120,7,20,5,5,20\nrun,10000,frames\nramp,0,4\nflip,2,60000,40\n";

/// A gate that counts how often it is passed.
#[derive(Drop)]
struct Counting {
    passes: AtomicU32,
}

impl Gate for Counting {
    fn pass(&self, _lane: u32) {
        self.passes.fetch_add(1, Ordering::SeqCst);
    }
}

/// Rows that note how often the gate was passed when the first frame came.
#[derive(Drop)]
struct Noting<'a> {
    gate: &'a Counting,
    first: Option<u32>,
}

impl<'a> Rows for Noting<'a> {
    ghost Took = { λ a b rows. Unit {0} };

    ghost shape = { λ a. None };

    ghost faults = { λ a. 0 };

    fn row(&mut self, row: &Row, _words: &[u32]) -> Result<(), Failed> {
        if let (Row::Frame(..), None) = (row, self.first) {
            self.first = Some(self.gate.passes.load(Ordering::SeqCst));
        }
        Ok(())
    }
}

/// The first frame is handed on before the last segment runs.
#[test]
fn rows_as_they_come(rt: HostRuntime) -> Result<(), Fail> {
    let alloc = rt.alloc();
    let scenario = read(alloc, FOUR_LANES)?;
    if scenario.link.is_none() {
        return Err("no link".into());
    }
    let Ok(mut bench) = Bench::open(alloc, scenario, 1) else {
        return Err("memory".into());
    };
    let gate = Counting {
        passes: AtomicU32::new(0),
    };
    let mut rows = Noting {
        gate: &gate,
        first: None,
    };
    let _ = bench.play(&rt, &mut rows, &gate, false);
    let first = rows.first;
    let passes = gate.passes.load(Ordering::SeqCst);
    assert!(rt; first.is_some_and(|first| first < passes));
    Ok(())
}
