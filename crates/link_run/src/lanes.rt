//! The lanes of a run.
ghost use Rattle.std.specs.Prelude.{◌≡◌, ◌≤◌, ◌<◌, ◌+◌, ℕ, suc, [], length, get_or, slice_index, map, fold, max, true, Option, None, Some, All, IfOk};
ghost use Rattle.link_params.specs.declared.fields.Params.{Params as ParamsValue};
ghost use Rattle.link_params.specs.Laws.{is_b};
ghost use Rattle.link_params.specs.Numbers.{period};
ghost use Rattle.bring_up.specs.Decisions.{is_running};
ghost use Rattle.scenario.specs.Plans.{Plan, numbers_from, plan_of};
ghost use Rattle.link_model.specs.Kinds.{kind_of, moment_of, run_of};
ghost use Rattle.link_model.specs.Wiring.{has_inverted_polarity, route_of};
ghost use Rattle.link_model.specs.kept.LaneRuns.{LaneRun, lane_run, lane_stepped, no_run};
ghost use Rattle.lane_threads.specs.declared.lane_pair.LanePair.{LanePair as PairValue};
ghost use Rattle.lane_threads.specs.Segments.{IsOnePair};
ghost use Rattle.lane_threads.specs.kept.LaneEnds.{params_in};
ghost use Rattle.link_run.specs.kept.Ends.{ArePairs, HaveCells};
ghost use Rattle.link_run.specs.kept.LaneRuns.{AreAt, AreOnRings, ArePut, AreSameLanes, HaveRings, HaveRunLanes, HaveWidths, KeepRings, with_lane};
ghost use Rattle.link_run.specs.kept.Opened.{IsOpened, IsOpenedEnd};
ghost use Rattle.link_run.specs.kept.Segments.{CanCarry, CanGive, IsCarried};

use crate::flips::inverted_bits;
use crate::segment::Segment;
use jesd_base::NoMemory;
use lane_threads::{CellEnd, Gate, LanePair, Side, meet, open_line, run_segment};
use link_params::{LaneReport, Link};
use scenario::Scenario;
use std::alloc::Global;
use std::marker::Model;
use std::thread::Threads;

/// All lanes of a run, in ascending order. Contracts see it as their list.
#[derive(Drop)]
pub struct Lanes {
    pairs: Vec<LanePair>,
}

impl Model for Lanes {
    ghost use Rattle.std.specs.Prelude.{◌≤◌, List, vec_len};
    ghost use Rattle.lane_threads.specs.declared.lane_pair.LanePair.{LanePair};

    ghost Value = { List LanePair };

    ghost view = { λ l. l.pairs.items };

    ghost invariant = { λ l. vec_len l.pairs ≤ 32 };
}

impl Lanes {
    /// The lanes of a scenario with this link before the first tick, each with the transmitter lane
    /// to which it is wired, and the other ends of their rings. All their memory is taken here;
    /// `NoMemory` where there is none.
    pub fn open(alloc: Global, s: &Scenario, link: &Link) -> Result<(Lanes, Vec<CellEnd>), NoMemory>
        requires link { s.now.link ≡ Some link.now }
        ensures begins { (plan : Plan) → plan_of s.now ≡ Some plan
            → IfOk result (λ r. HaveRunLanes r.0 plan (λ lane. record (no_run plan) { inverted = has_inverted_polarity plan lane })
            × HaveRings r.0 plan 0 0) }
        ensures ends { (s : Plan) → IfOk result (λ r. HaveCells r.1.items s 0 0) }
        ensures pairs { IfOk result (λ r. ArePairs r.0 r.1.items) }
        ensures at { IfOk result (λ r. AreAt r.0 link.now.params None) }
        ensures lanes { IfOk result (λ r. length r.0 ≡ link.now.params.l) }
    {
        let mut pairs = Vec::new(alloc);
        let mut ends = Vec::new(alloc);
        for lane in 0..link.shape().lanes() {
            let (pair, end) = open_pair(alloc, s, link, lane)?;
            if pairs.push(pair).is_err() || ends.push(end).is_err() {
                return Err(NoMemory);
            }
        }
        Ok((Lanes { pairs }, ends))
    }

    /// Each lane, in ascending order.
    pub fn pairs(&self) -> &[LanePair]
        ensures { result.now ≡ self.now }
    {
        self.pairs.as_slice()
    }

    /// What each transmitter lane is handed in tick `i` of the next segment, lane 0's first: the
    /// octets of the tick as one number, the first one most significant. `wire` is the transmitter
    /// lane to which each receiver lane is wired.
    pub fn put(&mut self, wire: &[u32], i: u32, handed: &[u64])
        requires lanes { length self.old ≤ length wire.now }
        requires wired { (lane : ℕ) → lane < length self.old
            → slice_index wire.now lane < length handed.now }
        requires inside { (lane : ℕ) (d : PairValue) → lane < length self.old
            → i < period (params_in (get_or self.old lane d).lane.tx) }
        requires widths { HaveWidths self.old }
        requires small { (lane : ℕ) (d : PairValue) → lane < length self.old
            → is_b (params_in (get_or self.old lane d).lane.tx).mode ≡ true
            → slice_index handed.now (slice_index wire.now lane) < 256 }
        ensures put { ArePut self.old self.new wire.now i handed.now }
        ensures same { AreSameLanes self.old self.new }
    {
        for (lane, pair) in self.pairs.iter_mut().enumerate() {
            pair.put(i, handed[wire[lane] as usize]);
        }
    }

    /// Each lane runs the segment, on at most so many workers, and beside them the side runs once.
    pub fn carry<R: Threads + Sync, G: Gate, D: Side>(
        &mut self,
        rt: &R,
        workers: u32,
        segment: &Segment,
        gate: &G,
        side: &mut D,
    )
        requires workers { 0 < workers }
        requires can { CanCarry self.old segment.now }
        ensures ran { (s : Plan) (t m : ℕ) (first last : Option ℕ)
            → IsCarried self.old segment.now s t m first last
            → HaveRunLanes self.new s (lane_stepped (kind_of s.link.params) s (run_of s (t + m)))
            × HaveRings self.new s (t + m) (t + suc m)
            × AreAt self.new s.link.params last }
        ensures rings { AreOnRings self.old self.new }
        ensures side { D.runs side.old side.new }
    {
        run_segment(
            rt,
            workers,
            self.pairs.as_mut_slice(),
            segment.steps(),
            segment.gives(),
            gate,
            side,
        );
    }

    /// Writes the report of each lane.
    pub fn report(&self, reports: &mut [LaneReport])
        requires { length reports.old ≡ length self.now }
        ensures { (s : Plan) (runs : ℕ → LaneRun) → HaveRunLanes self.now s runs
            → reports.new ≡ map (λ lane. (kind_of s.link.params).report s.link.params s.link.timing (route_of s lane) (runs lane).taken) (numbers_from 0 s.link.params.l) }
    {
        for lane in 0..self.pairs.as_slice().len() {
            reports[lane] = self.pairs[lane].report();
        }
    }

    /// The most entries that any lane held.
    pub fn fullest(&self) -> u32
        ensures { result ≡ fold max 0 (map (λ a. a.fullest) self.now) }
    {
        let mut most = 0u32;
        for pair in &self.pairs {
            most = most.max(pair.fullest());
        }
        most
    }

    /// Each lane gives its oldest entry, which is sent on its ring where it is a cell.
    pub fn give(&mut self)
        requires { CanGive self.old }
        ensures gave { (s : Plan) (t : ℕ)
            → HaveRunLanes self.old s (lane_stepped (kind_of s.link.params) s (run_of s t))
            → HaveRings self.old s t (suc t) → is_running (moment_of s (run_of s t)).stage ≡ true
            → HaveRunLanes self.new s (lane_run s (run_of s (suc t)))
            × HaveRings self.new s (suc t) (suc t) }
        ensures at { (p : ParamsValue) (next : Option ℕ) → AreAt self.old p next
            → AreAt self.new p next }
        ensures rings { AreOnRings self.old self.new }
    {
        for pair in self.pairs.iter_mut() {
            pair.give();
        }
    }

    /// Both ends of each ring meet: afterwards the ends know of all cells that were sent and not
    /// received.
    pub fn meet(&mut self, ends: &mut [CellEnd])
        requires pairs { ArePairs self.old ends.old }
        ensures pairs { ArePairs self.new ends.new }
        ensures knows { (s : Plan) (t n : ℕ) → HaveRings self.old s (t + n) (t + n)
            → HaveCells ends.old s t 0 → HaveCells ends.new s t n }
        ensures lanes { (s : Plan) (runs : ℕ → LaneRun) → HaveRunLanes self.old s runs
            → HaveRunLanes self.new s runs }
        ensures rings { (s : Plan) (given held : ℕ) → HaveRings self.old s given held
            → HaveRings self.new s given held }
        ensures at { (p : ParamsValue) (next : Option ℕ) → AreAt self.old p next
            → AreAt self.new p next }
    {
        for lane in 0..ends.len() {
            meet(&mut self.pairs[lane], &mut ends[lane]);
        }
    }

    /// A reset of the transmitter.
    pub fn clear_tx(&mut self)
        ensures goes_on { (s : Plan) (runs : ℕ → LaneRun) → HaveRunLanes self.old s runs
            → HaveRunLanes self.new s (λ lane. record (runs lane) { handed = [] }) }
        ensures at { (p : ParamsValue) (next : Option ℕ) → AreAt self.old p next
            → AreAt self.new p None }
        ensures rings { KeepRings self.old self.new }
        ensures lanes { length self.new ≡ length self.old }
    {
        for pair in self.pairs.iter_mut() {
            pair.clear_tx();
        }
    }

    /// From this tick on a lane delays by so many bits.
    pub fn set_delay(&mut self, lane: u32, bits: u32)
        requires lane { lane < length self.old }
        requires bits { (d : PairValue) → bits ≤ (get_or self.old lane d).lane.line.set.reach }
        ensures goes_on { (s : Plan) (runs : ℕ → LaneRun) → HaveRunLanes self.old s runs
            → HaveRunLanes self.new s (with_lane runs lane (record (runs lane) { delay = bits })) }
        ensures at { (p : ParamsValue) (next : Option ℕ) → AreAt self.old p next
            → AreAt self.new p next }
        ensures rings { KeepRings self.old self.new }
        ensures lanes { length self.new ≡ length self.old }
    {
        self.pairs[lane as usize].set_delay(bits);
    }

    /// From this tick on a lane is dead, or alive.
    pub fn set_dead(&mut self, lane: u32, dead: bool)
        requires lane { lane < length self.old }
        ensures goes_on { (s : Plan) (runs : ℕ → LaneRun) → HaveRunLanes self.old s runs
            → HaveRunLanes self.new s (with_lane runs lane (record (runs lane) { dead = dead })) }
        ensures at { (p : ParamsValue) (next : Option ℕ) → AreAt self.old p next
            → AreAt self.new p next }
        ensures rings { KeepRings self.old self.new }
        ensures lanes { length self.new ≡ length self.old }
    {
        self.pairs[lane as usize].set_dead(dead);
    }
}

// A lane of a scenario before the first tick, with the transmitter lane to which it is wired, and the
// other end of its ring.
fn open_pair(
    alloc: Global,
    s: &Scenario,
    link: &Link,
    lane: u32,
) -> Result<(LanePair, CellEnd), NoMemory>
    requires link { s.now.link ≡ Some link.now }
    requires lane { lane < link.now.params.l }
    ensures opened { IfOk result (λ r. IsOpened s.now link.now lane r.0) }
    ensures end { IfOk result (λ r. IsOpenedEnd r.1) }
    ensures pair { IfOk result (λ r. IsOnePair r.0 r.1) }
{
    let flips = inverted_bits(alloc, s.flips.as_slice(), lane)?;
    let line = open_line(alloc, link, flips)?;
    let at = lane as usize;
    let opened = LanePair::open(alloc, link, s.wire[at], s.route[at], line, s.ticks)?;
    let (mut pair, end) = opened;
    pair.set_inverted(s.inverted[at]);
    Ok((pair, end))
}
