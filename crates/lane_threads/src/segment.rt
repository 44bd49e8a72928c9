//! A segment of ticks, on as many workers as are given.
ghost use Rattle.std.specs.Prelude.{◌≡◌, ◌+◌, ◌<◌, ◌≤◌, length};
ghost use Rattle.std.specs.Thread.{IsSend, IsSync};
ghost use Rattle.lane_threads.specs.Segments.{EachCanRun, EachHasRun};

use crate::gate::{Gate, Side};
use crate::lane_pair::LanePair;
use crate::step::Step;
use std::thread::{Threads, join_mut};

// From so many ticks of lanes on the side has a thread of its own. To start a thread and to wait
// for its end takes 0.1 to 0.2 ms, and a tick of a lane about 0.1 microseconds.
const WORTH_A_THREAD: usize = 2048;

/// Each lane runs these steps on at most so many workers, and beside them the side runs once. A
/// worker passes the gate once before the ticks of each lane. Where `gives` is true each lane gives
/// an entry after each tick but the last. What is left of the lanes does not depend on the number
/// of workers.
pub fn run_segment<R: Threads + Sync, G: Gate, D: Side>(
    rt: &R,
    workers: u32,
    lanes: &mut [LanePair],
    steps: &[Step],
    gives: bool,
    gate: &G,
    side: &mut D,
)
    requires workers { 0 < workers }
    requires lanes { length lanes.old ≤ 32 }
    requires can { EachCanRun steps.now gives lanes.old }
    ensures lanes { EachHasRun steps.now gives lanes.old lanes.new }
    ensures side { D.runs side.old side.new }
{
    if lanes.len().saturating_mul(steps.len()) < WORTH_A_THREAD {
        run_part(rt, workers, 0, steps, gives, gate, lanes);
        side.run();
        return;
    }
    join_mut(
        rt,
        &mut ||
            requires { IsSync R.row × IsSync G.row × (0 < workers) × (length lanes.now ≤ 32) × EachCanRun steps.now gives lanes.now }
            ensures { EachHasRun steps.entry.now gives lanes.entry.now lanes.exit.now }
        { run_part(rt, workers, 0, steps, gives, gate, lanes) },
        &mut || side.run(),
    );
}

// Lanes from `first` on, on at most so many workers.
#[cycle(part)]
fn run_part<R: Threads + Sync, G: Gate>(
    rt: &R,
    workers: u32,
    first: u32,
    steps: &[Step],
    gives: bool,
    gate: &G,
    lanes: &mut [LanePair],
)
    requires workers { 0 < workers }
    requires few { first + length lanes.old ≤ 32 }
    requires can { EachCanRun steps.now gives lanes.old }
    ensures { EachHasRun steps.now gives lanes.old lanes.new }
{
    if workers == 1 || lanes.len() < 2 {
        run_here(first, steps, gives, gate, lanes);
        return;
    }
    let few = workers / 2;
    let half = lanes.len() / 2;
    let (front, back) = lanes.split_at_mut(half);
    run_both(
        rt,
        few,
        first,
        steps,
        gives,
        gate,
        front,
        workers - few,
        first + half as u32,
        back,
    );
}

// Two parts at once, on `few` and `more` workers.
#[cycle(part)]
fn run_both<R: Threads + Sync, G: Gate>(
    rt: &R,
    few: u32,
    first: u32,
    steps: &[Step],
    gives: bool,
    gate: &G,
    front: &mut [LanePair],
    more: u32,
    next: u32,
    back: &mut [LanePair],
)
    requires workers { (0 < few) × (0 < more) }
    requires lanes { (first + length front.old ≤ 32) × (next + length back.old ≤ 32) }
    requires front { EachCanRun steps.now gives front.old }
    requires back { EachCanRun steps.now gives back.old }
    ensures front { EachHasRun steps.now gives front.old front.new }
    ensures back { EachHasRun steps.now gives back.old back.new }
{
    let mut low = ||
        requires { IsSync R.row × IsSync G.row × (0 < few) × (first + length front.now ≤ 32) × EachCanRun steps.now gives front.now }
        ensures { EachHasRun steps.entry.now gives front.entry.now front.exit.now }
    { run_part(rt, few, first, steps, gives, gate, front) };
    let mut high = ||
        requires { IsSync R.row × IsSync G.row × (0 < more) × (next + length back.now ≤ 32) × EachCanRun steps.now gives back.now }
        ensures { EachHasRun steps.entry.now gives back.entry.now back.exit.now }
    { run_part(rt, more, next, steps, gives, gate, back) };
    join_mut(rt, &mut low, &mut high);
}

// The lanes from `first` on, one after the other.
fn run_here<G: Gate>(first: u32, steps: &[Step], gives: bool, gate: &G, lanes: &mut [LanePair])
    requires { EachCanRun steps.now gives lanes.old }
    ensures { EachHasRun steps.now gives lanes.old lanes.new }
{
    let mut number = first;
    for lane in lanes.iter_mut() {
        gate.pass(number);
        lane.run(steps, gives);
        number = number.wrapping_add(1);
    }
}
