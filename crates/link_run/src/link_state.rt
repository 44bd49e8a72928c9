//! Both ends of a link, and the lanes between them.
ghost use Rattle.std.specs.Prelude.{◌≡◌, ◌≤◌, ◌<◌, ◌==◌, ◌+◌, ◌*◌, ◌^◌, [], ℕ, suc, length, fold, map, max, if◌then◌else◌, Option, None, Some, All, IfOk, IfSome};
ghost use Rattle.link_params.specs.declared.fields.Params.{Params as ParamsValue};
ghost use Rattle.scenario.specs.Plans.{Plan, plan_of};
ghost use Rattle.link_model.specs.Kinds.{run_of};
ghost use Rattle.link_model.specs.kept.LaneRuns.{LaneRun};
ghost use Rattle.link_run.specs.kept.Ends.{ArePairs, HaveCells};
ghost use Rattle.link_run.specs.kept.Gathered.{Whole};
ghost use Rattle.link_run.specs.kept.LaneRuns.{AreAt, HaveRunLanes, KeepRings};
ghost use Rattle.link_run.specs.kept.LinkStates.{HasCarriedOn, HasEnded, HasFinished, HasHappened, HasNext, HasReportedBefore, HasRun, HasRunLanes, HasSegment, alarms_in, decision_in, reset_in, runs_in, seen_in};
ghost use Rattle.link_run.specs.kept.Reported.{IsSeen};

use crate::collector::Collector;
use crate::deframer::Deframer;
use crate::ended::Ended;
use crate::events::happen;
use crate::happened::Happened;
use crate::lanes::Lanes;
use crate::planner::Planner;
use crate::segment::Segment;
use crate::ticked::Ticked;
use crate::transmitter::data_place;
use bring_up::{AlarmRow, Decision};
use jesd_base::NoMemory;
use lane_threads::{CellEnd, Gate, LanePair, Side};
use link_params::Link;
use scenario::Scenario;
use std::alloc::Global;
use std::marker::Model;
use std::mem::swap;
use std::thread::Threads;

/// Both ends of a link, and the lanes between them.
#[derive(Drop)]
pub struct LinkState {
    link: Link,
    planner: Planner,
    lanes: Lanes,
    // The segment that ran last, and the one before it, whose rows are due.
    latest: Ended,
    last: Ended,
    collector: Collector,
    no_alarms: AlarmRow,
}

impl Model for LinkState {
    ghost use Rattle.std.specs.Prelude.{◌≡◌, []};
    ghost use Rattle.link_run.specs.kept.LinkStates.{LinkView};

    ghost Value = { LinkView };

    ghost view = { λ l. record {
      link = l.link;
      planning = l.planner;
      lanes = l.lanes;
      latest = l.latest;
      last = l.last;
      collecting = l.collector;
    } };

    ghost invariant = { λ l. l.no_alarms ≡ [] };
}

impl LinkState {
    /// Both ends of this link, and its lanes, before the first tick. All memory of the run is taken
    /// here; `NoMemory` where there is too little of it.
    pub fn open(alloc: Global, s: &Scenario, link: &Link) -> Result<LinkState, NoMemory>
        requires link { s.now.link ≡ Some link.now }
        ensures stands { (plan : Plan) → plan_of s.now ≡ Some plan
            → IfOk result (λ l. HasRun l plan 0 0) }
        ensures same { IfOk result (λ l. l.link ≡ link.now) }
    {
        let (lanes, ends) = Lanes::open(alloc, s, link)?;
        let period = link.shape().period();
        Ok(LinkState {
            link: *link,
            planner: Planner::open(alloc, s, link)?,
            lanes,
            latest: open_segment(alloc, period)?,
            last: open_segment(alloc, period)?,
            collector: Collector::open(alloc, s, link, ends)?,
            no_alarms: AlarmRow::new(),
        })
    }

    /// Runs the segment that begins with tick `t`, its lanes on at most so many workers, and takes
    /// the cells of the segment before beside it. How many ticks it has.
    pub fn run<R: Threads + Sync, G: Gate>(
        &mut self,
        rt: &R,
        s: &Scenario,
        t: u32,
        workers: u32,
        gate: &G,
    ) -> u32
        requires tick { t < s.now.ticks }
        requires link { s.now.link ≡ Some self.old.link }
        requires workers { 0 < workers }
        requires stands { (plan : Plan) → plan_of s.now ≡ Some plan
            → (from : ℕ) × HasRun self.old plan from t }
        ensures ran { (plan : Plan) (from : ℕ) → plan_of s.now ≡ Some plan → HasRun self.old plan from t
            → (m : ℕ) × (result ≡ suc m) × HasNext self.new plan from t m }
        ensures some { 0 < result }
        ensures within { t + result ≤ s.now.ticks }
        ensures same { self.new.link ≡ self.old.link }
    {
        let _shape = self.link.shape();
        let _timing = self.link.timing();
        self.meet();
        let happened = self.happen(s, t);
        let (lanes, segment) = (&mut self.lanes, &mut self.latest.segment);
        self.planner.plan(s, t, &happened, lanes, segment);
        let segment = &self.latest.segment;
        self.lanes
            .carry(rt, workers, segment, gate, &mut self.collector);
        let count = self.latest.segment.len() as u32;
        self.end(s, t + (count - 1));
        count
    }

    /// The segment that ran last is the one whose rows are due next.
    pub fn turn(&mut self)
        ensures turned { (s : Plan) (t m : ℕ) → HasReportedBefore self.old s t m
            → HasRun self.new s t (t + suc m) }
        ensures same { self.new.link ≡ self.old.link }
    {
        swap(&mut self.latest, &mut self.last);
    }

    /// The run is over: the cells of its last segment are taken.
    pub fn finish(&mut self)
        requires pairs { ArePairs self.old.lanes self.old.collecting.ends }
        ensures finished { (s : Plan) (from t : ℕ) → HasRun self.old s from t
            → HasFinished self.new s from t }
        ensures same { self.new.link ≡ self.old.link }
    {
        self.meet();
        self.collector.run();
    }

    // The ends of the rings know of all that the lanes gave.
    fn meet(&mut self)
        requires pairs { ArePairs self.old.lanes self.old.collecting.ends }
        ensures ran { (s : Plan) (t : ℕ) → HasRunLanes self.old s t → HasRunLanes self.new s t }
        ensures knows { (s : Plan) (t n : ℕ) → HasRunLanes self.old s (t + n)
            → HaveCells self.old.collecting.ends s t 0 → HaveCells self.new.collecting.ends s t n }
        ensures same { self.new ≡ record self.old {
          lanes = self.new.lanes;
          collecting = record self.old.collecting { ends = self.new.collecting.ends };
        } }
    {
        self.collector.meet(&mut self.lanes);
    }

    // The events of tick `t` happen.
    fn happen(&mut self, s: &Scenario, t: u32) -> Happened
        requires tick { t < s.now.ticks }
        requires link { s.now.link ≡ Some self.old.link }
        requires stands { (plan : Plan) → plan_of s.now ≡ Some plan → HasRunLanes self.old plan t }
        ensures { (plan : Plan) → plan_of s.now ≡ Some plan
            → HasHappened result self.old self.new plan t }
    {
        let happened = happen(s, &mut self.lanes, self.planner.next(), t);
        clear_if(&mut self.lanes, happened.tx_reset);
        happened
    }

    // The segment's last tick, tick `t`, is over: where it is a release point the receiver decides,
    // and where the link runs then each lane gives an entry.
    fn end(&mut self, s: &Scenario, t: u32)
        requires link { s.now.link ≡ Some self.old.link }
        requires can { (plan : Plan) → plan_of s.now ≡ Some plan
            → (from m : ℕ) × (t ≡ from + m) × HasCarriedOn self.old plan from m }
        ensures ended { (plan : Plan) (from m : ℕ) → plan_of s.now ≡ Some plan → t ≡ from + m
            → HasCarriedOn self.old plan from m → HasEnded self.new plan from m }
        ensures same { self.new ≡ record self.old {
          planning = self.new.planning;
          lanes = self.new.lanes;
          latest = record self.new.latest { segment = self.old.latest.segment };
        } }
    {
        let _shape = self.link.shape();
        let _timing = self.link.timing();
        let decides = self.latest.segment.decides();
        self.latest.decision = self.planner.end(s, t, &self.lanes, decides);
        self.planner.take_alarms(&mut self.latest.alarms);
        self.latest.released = self.planner.is_released();
        if self.latest.released {
            self.lanes.give();
        }
    }

    /// Takes what the lanes gave in tick `i` of the segment whose rows are due; the ticks before it
    /// were taken.
    pub fn collect(&mut self, i: usize) -> Ticked
        requires inside { i < length self.old.last.segment.steps }
        requires has { (s : Plan) × (t : ℕ) × (m : ℕ) × HasSegment self.old s t m i }
        ensures seen { (s : Plan) (t m : ℕ) → HasSegment self.old s t m i → i ≤ m
            → IsSeen result (alarms_in self.old i) self.new.collecting.gathering.frames self.new.collecting.gathering.at s (run_of s (t + i)) }
        ensures goes_on { (s : Plan) (t m : ℕ) → HasSegment self.old s t m i → i ≤ m
            → HasSegment self.new s t m (suc i) }
        ensures place { IfSome result.place (λ x. x < 1024) }
        ensures same { self.new ≡ record self.old { collecting = self.new.collecting } }
        ensures ends { self.new.collecting.ends ≡ self.old.collecting.ends }
    {
        let _shape = self.link.shape();
        let _timing = self.link.timing();
        let seen = self.seen(i);
        let hunt = self.last.segment.steps()[i].rx.hunt;
        let runs = self.runs(i);
        self.collector.take(hunt, runs);
        seen
    }

    // What is seen of tick `i` of the segment whose rows are due.
    fn seen(&self, i: usize) -> Ticked
        requires inside { i < length self.now.last.segment.steps }
        requires edges { i < length self.now.last.segment.edges }
        ensures { result ≡ seen_in self.now i }
    {
        let (step, edges) = (self.last.segment.steps()[i], self.last.segment.edges()[i]);
        Ticked {
            rx_reset: self.is_reset(i),
            tx_off: edges.tx,
            rx_off: edges.rx,
            place: data_place(step.tx),
            decision: self.decision(i),
        }
    }

    // Whether the receiver was reset in it.
    fn is_reset(&self, i: usize) -> bool
        ensures { result ≡ reset_in self.now i }
    {
        i == 0 && self.last.segment.rx_reset()
    }

    // Whether it is the last one of its segment.
    fn is_last(&self, i: usize) -> bool
        requires inside { i < length self.now.last.segment.steps }
        ensures { result ≡ (i + 1 == length self.now.last.segment.steps) }
    {
        let count = self.last.segment.len();
        i + 1 == count
    }

    // Whether the link runs after it.
    fn runs(&self, i: usize) -> bool
        requires inside { i < length self.now.last.segment.steps }
        ensures { result ≡ runs_in self.now i }
    {
        if self.is_last(i) {
            self.last.released
        } else {
            self.last.segment.gives()
        }
    }

    // What the receiver decided in it.
    fn decision(&self, i: usize) -> Decision
        requires inside { i < length self.now.last.segment.steps }
        ensures { result ≡ decision_in self.now i }
    {
        if self.is_last(i) {
            self.last.decision
        } else {
            Decision::Stay
        }
    }

    /// The alarms of the decision in tick `i` of the segment whose rows are due.
    pub fn alarms(&self, i: usize) -> &AlarmRow
        requires inside { i < length self.now.last.segment.steps }
        ensures alarms { result.now ≡ alarms_in self.now i }
        ensures few { length result.now ≤ 34 }
    {
        if self.is_last(i) {
            let alarms = &self.last.alarms;
            // This call's clause says that a row has at most 34 alarms.
            let _count = alarms.len();
            alarms
        } else {
            &self.no_alarms
        }
    }

    /// How many ticks the segment has whose rows are due.
    pub fn due(&self) -> u32
        requires { length self.now.last.segment.steps < 2 ^ 32 }
        ensures { result ≡ length self.now.last.segment.steps }
    {
        self.last.segment.len() as u32
    }

    /// The frames that were delivered in the last tick, oldest first, and how many octets of each
    /// lane are there of the one that is not whole.
    pub fn delivered(&self) -> &Deframer
        ensures { result.now ≡ self.now.collecting.gathering }
    {
        self.collector.delivered()
    }

    /// The most entries that any lane held.
    pub fn fullest(&self) -> u32
        ensures { result ≡ fold max 0 (map (λ a. a.fullest) self.now.lanes) }
    {
        self.lanes.fullest()
    }

    /// Each lane, in ascending order.
    pub fn lanes(&self) -> &[LanePair]
        ensures { result.now ≡ self.now.lanes }
    {
        self.lanes.pairs()
    }

    /// The end of each lane's ring, in ascending lanes.
    pub fn ends(&self) -> &[CellEnd]
        ensures { result.now ≡ self.now.collecting.ends }
    {
        self.collector.ends()
    }
}

// A segment without ticks, with room for so many; `NoMemory` where there is none.
fn open_segment(alloc: Global, room: u32) -> Result<Ended, NoMemory>
    ensures room { IfOk result (λ e. e.segment.room ≡ room) }
    ensures empty { IfOk result (λ e. e.segment.steps ≡ []) }
{
    Ok(Ended {
        segment: Segment::open(alloc, room)?,
        decision: Decision::Stay,
        alarms: AlarmRow::new(),
        released: false,
    })
}

fn clear_if(lanes: &mut Lanes, reset: bool)
    ensures goes_on { (s : Plan) (runs : ℕ → LaneRun) → HaveRunLanes lanes.old s runs
        → HaveRunLanes lanes.new s (λ lane. record (runs lane) { handed = if reset then [] else (runs lane).handed }) }
    ensures at { (p : ParamsValue) (next : Option ℕ) → AreAt lanes.old p next
        → AreAt lanes.new p (if reset then None else next) }
    ensures rings { KeepRings lanes.old lanes.new }
    ensures count { length lanes.new ≡ length lanes.old }
{
    if reset {
        lanes.clear_tx();
    }
}
