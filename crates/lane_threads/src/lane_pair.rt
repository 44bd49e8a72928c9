//! A lane with its octets for a segment and its ring.
ghost use Rattle.std.specs.Prelude.{◌≡◌, ◌≤◌, ◌<◌, ◌+◌, ◌^◌, ◌&&◌, nat_lt, ℕ, length, get_or};
ghost use Rattle.rtrb.specs.Ring.{known_free, sent};
ghost use Rattle.link_params.specs.Numbers.{period};
ghost use Rattle.lane_threads.specs.kept.LaneEnds.{params_in, tx_width};

use crate::cell_end::CellEnd;
use crate::lane::Lane;
use crate::step::Step;
use jesd_base::NoMemory;
use line_model::Line;
use link_params::{LaneCell, LaneReport, Link};
use rtrb::{Producer, RingBuffer};
use std::alloc::Global;

/// A lane, the octets that it sends in each tick of the next segment, the greatest number of
/// entries that its elastic buffer held, and the end of a ring on which it sends the cells that
/// it gives.
#[derive(Drop)]
pub struct LanePair {
    lane: Lane,
    octets: Vec<u64>,
    fullest: u32,
    room: u32,
    pub(crate) ring: Producer<LaneCell>,
    ghost size: { length octets.items ≡ period (params_in lane.tx) },
    ghost small: { (k : ℕ) → k < length octets.items → tx_width lane.tx ≡ 10 → get_or octets.items k 0 < 256 },
    ghost has_room: { room ≤ known_free ring },
    ghost few: { room + length (sent ring) < 2 ^ 32 },
}

impl LanePair {
    ghost use Rattle.std.specs.Prelude.{◌≡◌, ◌≤◌, ◌<◌, [], ℕ, None, true, false, length, set, vec_len, IfOk};
    ghost use Rattle.rtrb.specs.Ring.{known_items, received, sent};
    ghost use Rattle.link_params.specs.Numbers.{period, width};
    ghost use Rattle.line_model.specs.kept.Lines.{HasCarried};
    ghost use Rattle.scenario.specs.Plans.{Plan};
    ghost use Rattle.link_model.specs.Kinds.{kind_of};
    ghost use Rattle.link_model.specs.Wiring.{route_of, wire_of};
    ghost use Rattle.link_model.specs.kept.LaneRuns.{HasNewEnds, LaneRun};
    ghost use Rattle.lane_threads.specs.Segments.{CanRun, HasRun, IsOnePair};
    ghost use Rattle.lane_threads.specs.kept.LaneEnds.{MayFollow, buffer_in, next_in, params_in, tx_width};
    ghost use Rattle.lane_threads.specs.kept.LaneRuns.{HasRunLane, settings};
    ghost use Rattle.lane_threads.specs.kept.SegmentRuns.{HasTicked, IsReady, KeepsRest};

    /// A lane before its first tick, over any line of the link's width, also one that carried bits
    /// before, and the other end of its ring: transmitter lane `lane`, and a receiver lane that
    /// expects the configuration of lane `expect`. The bits that it takes are not inverted. The lane
    /// has room for the octets of one segment, and its ring for `cells` cells. All memory is taken
    /// here; `NoMemory` where there is none.
    pub fn open(
        alloc: Global,
        link: &Link,
        lane: u32,
        expect: u32,
        line: Line,
        cells: u32,
    ) -> Result<(LanePair, CellEnd), NoMemory>
        requires lane { lane < link.now.params.l }
        requires expect { expect < link.now.params.l }
        requires width { line.set.width ≡ width link.now.params }
        requires cells { 0 < cells }
        ensures begins { (s : Plan) (own : ℕ) (x : LaneRun) → s.link ≡ link.now
            → wire_of s own ≡ lane → route_of s own ≡ expect → HasNewEnds x
            → HasCarried line (settings s own x) x.sent
            → IfOk result (λ r. HasRunLane r.0.lane s own x) }
        ensures next { IfOk result (λ r. (params_in r.0.lane.tx ≡ link.now.params) × (next_in r.0.lane.tx ≡ None)) }
        ensures new { IfOk result (λ r. (r.0.fullest ≡ 0) × (r.0.room ≡ cells) × (sent r.0.ring ≡ [])) }
        ensures end { IfOk result (λ r. (received r.1.ring ≡ []) × (known_items r.1.ring ≡ [])) }
        ensures pair { IfOk result (λ r. IsOnePair r.0 r.1) }
    {
        let size = link.shape().period() as usize;
        let lane = Lane::with_line(alloc, link, lane, expect, line)?;
        let Ok(octets) = vec![in alloc; 0u64; size] else {
            return Err(NoMemory);
        };
        let Ok((producer, consumer)) = RingBuffer::new(alloc, cells as usize) else {
            return Err(NoMemory);
        };
        let pair = LanePair {
            lane,
            octets,
            fullest: 0,
            room: cells,
            ring: producer,
        };
        let end = CellEnd {
            ring: consumer,
            known: 0,
        };
        Ok((pair, end))
    }

    /// Sets the octets of tick `i` of the next segment: one in mode `b`, else eight, the first one
    /// most significant.
    pub fn put(&mut self, i: u32, octets: u64)
        requires inside { i < period (params_in self.old.lane.tx) }
        requires small { tx_width self.old.lane.tx ≡ 10 → octets < 256 }
        ensures octets { self.new.octets.items ≡ set self.old.octets.items i octets }
        ensures lane { self.new.lane ≡ self.old.lane }
        ensures rest { (self.new.fullest ≡ self.old.fullest) × (self.new.room ≡ self.old.room) × (self.new.ring ≡ self.old.ring) }
    {
        self.octets[i as usize] = octets;
    }

    /// Gives the oldest entry of the elastic buffer: a cell is sent on the ring, and a place of the
    /// alignment sequence is dropped.
    pub fn give(&mut self)
        requires entry { 0 < length (buffer_in self.old.lane.rx).cells }
        requires room { 0 < self.old.room }
        ensures { IsReady true self.old self.new }
    {
        if let Some(cell) = self.lane.give() {
            self.ring.push_reserved(cell);
            self.room -= 1;
        }
    }

    /// The report of the receiver end.
    pub fn report(&self) -> LaneReport
        ensures { (s : Plan) (lane : ℕ) (x : LaneRun) → HasRunLane self.now.lane s lane x
            → result ≡ (kind_of s.link.params).report s.link.params s.link.timing (route_of s lane)
            x.taken }
    {
        self.lane.report()
    }

    /// The greatest number of entries that the elastic buffer held after a tick, so far.
    pub fn fullest(&self) -> u32
        ensures { result ≡ self.now.fullest }
    {
        self.fullest
    }

    /// For how many cells the ring has room: those with which it was opened, less those sent.
    pub fn room(&self) -> u32
        ensures { result ≡ self.now.room }
    {
        self.room
    }

    /// A reset of the transmitter.
    pub fn clear_tx(&mut self)
        ensures goes_on { (s : Plan) (lane : ℕ) (x : LaneRun) → HasRunLane self.old.lane s lane x
            → HasRunLane self.new.lane s lane (record x { handed = [] }) }
        ensures next { next_in self.new.lane.tx ≡ None }
        ensures same { params_in self.new.lane.tx ≡ params_in self.old.lane.tx }
        ensures rx { self.new.lane.rx ≡ self.old.lane.rx }
        ensures rest { KeepsRest self.old self.new }
    {
        self.lane.clear_tx();
    }

    /// From the next tick on the line delays by so many bits.
    pub fn set_delay(&mut self, bits: u32)
        requires { bits ≤ self.old.lane.line.set.reach }
        ensures goes_on { (s : Plan) (lane : ℕ) (x : LaneRun) → HasRunLane self.old.lane s lane x
            → HasRunLane self.new.lane s lane (record x { delay = bits }) }
        ensures tx { self.new.lane.tx ≡ self.old.lane.tx }
        ensures rx { self.new.lane.rx ≡ self.old.lane.rx }
        ensures rest { KeepsRest self.old self.new }
    {
        self.lane.set_delay(bits);
    }

    /// From the next tick on the line is dead, or alive.
    pub fn set_dead(&mut self, dead: bool)
        ensures goes_on { (s : Plan) (lane : ℕ) (x : LaneRun) → HasRunLane self.old.lane s lane x
            → HasRunLane self.new.lane s lane (record x { dead = dead }) }
        ensures tx { self.new.lane.tx ≡ self.old.lane.tx }
        ensures rx { self.new.lane.rx ≡ self.old.lane.rx }
        ensures rest { KeepsRest self.old self.new }
    {
        self.lane.set_dead(dead);
    }

    /// From the next tick on all bits that the receiver lane takes are inverted, or none.
    pub fn set_inverted(&mut self, on: bool)
        ensures goes_on { (s : Plan) (lane : ℕ) (x : LaneRun) → HasRunLane self.old.lane s lane x
            → HasRunLane self.new.lane s lane (record x { inverted = on }) }
        ensures tx { self.new.lane.tx ≡ self.old.lane.tx }
        ensures rx { self.new.lane.rx ≡ self.old.lane.rx }
        ensures rest { KeepsRest self.old self.new }
    {
        self.lane.set_inverted(on);
    }

    // Each tick of a segment.
    pub(crate) fn run(&mut self, steps: &[Step], gives: bool)
        requires { CanRun steps.now gives self.old }
        ensures { HasRun steps.now gives self.old self.new }
    {
        for n in 0..steps.len() {
            let gives = gives_before(n, gives);
            self.ready(gives);
            self.tick(&steps[n], n);
        }
    }

    // What the lane does before a tick: it gives an entry, or nothing.
    fn ready(&mut self, gives: bool)
        requires entry { gives ≡ true → 0 < length (buffer_in self.old.lane.rx).cells }
        requires room { gives ≡ true → 0 < self.old.room }
        ensures { IsReady gives self.old self.new }
    {
        if gives {
            self.give();
        }
    }

    // Tick `n` of a segment: the lane sends and takes.
    fn tick(&mut self, step: &Step, n: usize)
        requires follows { MayFollow self.old.lane.tx step.now.tx }
        requires inside { n < length self.old.octets.items }
        requires room { step.now.rx.hunt ≡ false
            → length (buffer_in self.old.lane.rx).cells < (buffer_in self.old.lane.rx).depth }
        ensures { HasTicked step.now n self.old self.new }
    {
        self.lane.step(step.tx, self.octets[n], &step.rx);
        self.fullest = self.fullest.max(self.lane.held());
    }
}

// Whether an entry is given before tick `n`: after each tick but the last.
fn gives_before(n: usize, gives: bool) -> bool
    ensures { result ≡ (nat_lt 0 n && gives) }
{
    n > 0 && gives
}
