//! Segments on one worker and on several.
ghost use Rattle.std.specs.Prelude.{◌≡◌, ◌<◌, ◌≤◌, ℕ, true, false, length, get_or, IfOk, IfSome};
ghost use Rattle.link_params.specs.declared.fields.Mode.TheVariants.{B};
ghost use Rattle.link_params.specs.declared.orders.TxOrder.TheVariants.{Comma};
ghost use Rattle.lane_threads.specs.Segments.{CanRun};
ghost use Rattle.lane_threads.specs.declared.step.Step.{Step as StepValue};

use crate::gate::{Gate, NoSide, Side};
use crate::lane::open_line;
use crate::lane_pair::LanePair;
use crate::segment::run_segment;
use crate::step::Step;
use jesd_base::NoMemory;
use link_params::{Link, Mode, Params, RxOrder, Timing, TxOrder};
use std::alloc::Global;
use std::sync::atomic::{AtomicBool, Ordering};
use std::test::Fail;
use std::thread::Threads;

// Two lanes, a multiframe of 1,024 octets.
fn link() -> Option<Link>
    ensures { IfSome result (λ k. (k.params.mode ≡ B) × (k.params.l ≡ 2)) }
{
    let params = Params {
        mode: Mode::B,
        l: 2,
        m: 2,
        f: 32,
        s: 32,
        n: 8,
        np: 8,
        cs: 0,
        hd: false,
        scr: false,
        k: 32,
        e: 0,
    };
    let timing = Timing {
        sysref_period: 2048,
        sysref_start: 2,
        tx_skew: 8,
        rx_skew: 120,
        tolerance: 7,
        rbd: 0,
        sync_delay: 5,
        w_lo: 5,
        w_hi: 6,
    };
    match params.check() {
        Ok(shape) => match shape.with(&timing) {
            Ok(link) => Some(link),
            Err(_) => None,
        },
        Err(_) => None,
    }
}

// The lane sends /K/, and a hunt begins.
const HUNT: Step = Step {
    tx: TxOrder::Comma,
    rx: RxOrder {
        hunt: true,
        armed: false,
        offset: 0,
    },
};

// A lane that can run such steps.
fn open_lane(alloc: Global, link: &Link, lane: u32, steps: &[Step]) -> Result<LanePair, NoMemory>
    requires lane { lane < link.now.params.l }
    requires mode { link.now.params.mode ≡ B }
    requires hunts { (n : ℕ) (d : StepValue) → n < length steps.now
        → ((get_or steps.now n d).tx ≡ Comma) × ((get_or steps.now n d).rx.hunt ≡ true) }
    ensures { IfOk result (λ a. CanRun steps.now false a) }
{
    if steps.len() > link.shape().period() as usize {
        return Err(NoMemory);
    }
    let line = open_line(alloc, link, Vec::new(alloc))?;
    let (lane, _) = LanePair::open(alloc, link, lane, lane, line, 100)?;
    Ok(lane)
}

// How often one looks for the other.
const TURNS: u32 = 10_000_000;

// A gate that two lanes pass: each one looks for the other.
#[derive(Drop)]
struct Meeting {
    here: [AtomicBool; 2],
    met: [AtomicBool; 2],
}

impl Meeting {
    fn new() -> Meeting {
        Meeting {
            here: [AtomicBool::new(false), AtomicBool::new(false)],
            met: [AtomicBool::new(false), AtomicBool::new(false)],
        }
    }

    // Each lane has seen the other.
    fn have_met(&self) -> bool {
        self.met[0].load(Ordering::SeqCst) && self.met[1].load(Ordering::SeqCst)
    }
}

impl Gate for Meeting {
    fn pass(&self, lane: u32) {
        let own = usize::from(lane != 0);
        self.here[own].store(true, Ordering::SeqCst);
        for _ in 0..TURNS {
            if self.here[1 - own].load(Ordering::SeqCst) {
                self.met[own].store(true, Ordering::SeqCst);
                return;
            }
        }
    }
}

// Whether two lanes are at the gate at one time, on so many workers.
fn have_met<R: Threads + Sync>(rt: &R, alloc: Global, workers: u32) -> Result<bool, NoMemory>
    requires { 0 < workers }
{
    let link = link().ok_or(NoMemory)?;
    let steps = [HUNT];
    let first = open_lane(alloc, &link, 0, &steps)?;
    let second = open_lane(alloc, &link, 1, &steps)?;
    let mut lanes = [first, second];
    let gate = Meeting::new();
    run_segment(rt, workers, &mut lanes, &steps, false, &gate, &mut NoSide);
    Ok(gate.have_met())
}

// With two workers they are, and with one never.
#[test]
fn workers_overlap(rt: HostRuntime) -> Result<(), Fail> {
    let alloc = rt.alloc();
    assert_eq!(rt; have_met(&rt, alloc, 2).ok(), Some(true));
    assert_eq!(rt; have_met(&rt, alloc, 1).ok(), Some(false));
    Ok(())
}

// A lane and what runs beside the lanes, of which each looks for the other.
#[derive(Drop)]
struct Beside {
    lane: AtomicBool,
    side: AtomicBool,
    lane_met: AtomicBool,
    side_met: AtomicBool,
}

// Shows a flag, and looks for the other one: whether it was seen.
fn look(own: &AtomicBool, other: &AtomicBool) -> bool {
    own.store(true, Ordering::SeqCst);
    for _ in 0..TURNS {
        if other.load(Ordering::SeqCst) {
            return true;
        }
    }
    false
}

impl Gate for Beside {
    fn pass(&self, _lane: u32) {
        if look(&self.lane, &self.side) {
            self.lane_met.store(true, Ordering::SeqCst);
        }
    }
}

// The side that looks for a lane.
#[derive(Drop)]
struct Looking<'a> {
    beside: &'a Beside,
}

impl<'a> Side for Looking<'a> {
    ghost runs = { λ a b. Unit {0} };

    fn run(&mut self) {
        if look(&self.beside.side, &self.beside.lane) {
            self.beside.side_met.store(true, Ordering::SeqCst);
        }
    }
}

// Whether a lane and the side are at work at one time, on one worker, in a segment of so many ticks.
fn overlap<R: Threads + Sync>(rt: &R, alloc: Global, steps: &[Step]) -> Result<bool, NoMemory>
    requires hunts { (n : ℕ) (d : StepValue) → n < length steps.now
        → ((get_or steps.now n d).tx ≡ Comma) × ((get_or steps.now n d).rx.hunt ≡ true) }
{
    let link = link().ok_or(NoMemory)?;
    let first = open_lane(alloc, &link, 0, steps)?;
    let second = open_lane(alloc, &link, 1, steps)?;
    let mut lanes = [first, second];
    let beside = Beside {
        lane: AtomicBool::new(false),
        side: AtomicBool::new(false),
        lane_met: AtomicBool::new(false),
        side_met: AtomicBool::new(false),
    };
    let mut looking = Looking { beside: &beside };
    run_segment(rt, 1, &mut lanes, steps, false, &beside, &mut looking);
    Ok(beside.lane_met.load(Ordering::SeqCst) && beside.side_met.load(Ordering::SeqCst))
}

// With one worker the side runs beside the lanes where they have many ticks, and after them where
// they have few.
#[test]
fn deframer_overlaps(rt: HostRuntime) -> Result<(), Fail> {
    let alloc = rt.alloc();
    assert_eq!(rt; overlap(&rt, alloc, &[HUNT; 1024]).ok(), Some(true));
    assert_eq!(rt; overlap(&rt, alloc, &[HUNT]).ok(), Some(false));
    Ok(())
}
