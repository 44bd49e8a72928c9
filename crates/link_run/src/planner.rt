//! The plan of a segment: both devices step ahead of the lanes.
ghost use Rattle.std.specs.Prelude.{◌≡◌, ◌≤◌, ◌<◌, ◌+◌, ◌*◌, ◌^◌, ℕ, suc, [], length, get_or, false, if◌then◌else◌, None, Some, IfOk, IsTrue, is_some};
ghost use Rattle.link_params.specs.declared.fields.Params.{Params as ParamsValue};
ghost use Rattle.link_params.specs.Numbers.{period};
ghost use Rattle.scenario.specs.Plans.{Plan, plan_of};
ghost use Rattle.link_model.specs.Edges.{is_reset};
ghost use Rattle.link_model.specs.Kinds.{kind_of, moment_of, run_of};
ghost use Rattle.link_model.specs.kept.LaneRuns.{lane_stepped};
ghost use Rattle.link_params.specs.declared.alarms.Device.TheVariants.{Tx as TxDevice, Rx as RxDevice};
ghost use Rattle.link_run.specs.kept.Happened.{are_past};
ghost use Rattle.link_run.specs.kept.LaneRuns.{AreAt, ArePut, AreSameLanes, HaveRunLanes, HaveWidths};
ghost use Rattle.link_run.specs.kept.ReceiverRuns.{HasReceivedRun, HasToldTick, IsEnded};
ghost use Rattle.link_run.specs.kept.Segments.{FollowOn, HasPlanned, HasPlannedTick, IsPlanned, StandAt};
ghost use Rattle.link_run.specs.kept.Sendings.{next_of};
ghost use Rattle.link_run.specs.kept.Transmitters.{HasSentRun, HasSentTick};
ghost use Rattle.bring_up.specs.Decisions.{is_hunting, is_running};
ghost use Rattle.lane_threads.specs.declared.lane_pair.LanePair.{LanePair};
ghost use Rattle.lane_threads.specs.kept.LaneEnds.{params_in};

use crate::edges::Edges;
use crate::happened::Happened;
use crate::lanes::Lanes;
use crate::receiver::Receiver;
use crate::segment::Segment;
use crate::transmitter::Transmitter;
use bring_up::{AlarmRow, Decision, Stage};
use jesd_base::NoMemory;
use lane_threads::Step;
use link_params::Link;
use scenario::Scenario;
use std::alloc::Global;
use std::marker::Model;

/// Both devices of a run, and the place of the next event.
#[derive(Drop)]
pub struct Planner {
    link: Link,
    next: usize,
    tx: Transmitter,
    rx: Receiver,
}

impl Model for Planner {
    ghost use Rattle.link_run.specs.kept.Segments.{Planning};

    ghost Value = { Planning };

    ghost view = { λ p. record { link = p.link; next = p.next; tx = p.tx; rx = p.rx } };
}

impl Planner {
    /// Both devices of this link before the first tick; `NoMemory` where there is none.
    pub fn open(alloc: Global, s: &Scenario, link: &Link) -> Result<Planner, NoMemory>
        ensures begins { (plan : Plan) → plan_of s.now ≡ Some plan → plan.link ≡ link.now
            → IfOk result (λ p. HasPlanned p plan 0) }
        ensures idle { (p : ParamsValue) → IfOk result (λ x. next_of p x.tx.sending ≡ None) }
        ensures same { IfOk result (λ p. p.link ≡ link.now) }
    {
        Ok(Planner {
            link: *link,
            next: 0,
            tx: Transmitter::open(alloc, s, link)?,
            rx: Receiver::open(alloc, s, link)?,
        })
    }

    /// The place of the first event that is not of an earlier tick.
    pub fn next(&self) -> usize
        ensures { result ≡ self.now.next }
    {
        self.next
    }

    /// Plans the segment that begins with tick `t`, whose events have happened: the orders of each
    /// tick go to the segment, the octets to the lanes. It ends with the first tick in which the
    /// receiver decides, before the next tick with an event, after a period, or with the run.
    pub fn plan(
        &mut self,
        s: &Scenario,
        t: u32,
        happened: &Happened,
        lanes: &mut Lanes,
        segment: &mut Segment,
    )
        requires tick { t < s.now.ticks }
        requires link { s.now.link ≡ Some self.old.link }
        requires room { period self.old.link.params ≤ segment.old.room }
        requires count { length lanes.old ≡ self.old.link.params.l }
        requires widths { HaveWidths lanes.old }
        requires at { AreAt lanes.old self.old.link.params
            (if happened.now.tx_reset then None else next_of self.old.link.params self.old.tx.sending) }
        requires happened { (plan : Plan) → plan_of s.now ≡ Some plan
            → (happened.now.tx_reset ≡ is_reset plan TxDevice t)
            × (happened.now.rx_reset ≡ is_reset plan RxDevice t)
            × (happened.now.next ≡ are_past plan (t + 1)) }
        requires stands { (plan : Plan) → plan_of s.now ≡ Some plan → HasPlanned self.old plan t }
        ensures planned { (plan : Plan) → plan_of s.now ≡ Some plan
            → (m : ℕ) × (length segment.new.steps ≡ suc m)
            × IsPlanned segment.new self.new lanes.new plan t m }
        ensures follows { FollowOn segment.new.steps self.old.link.params
            (if happened.now.tx_reset then None else next_of self.old.link.params self.old.tx.sending)
            (next_of self.old.link.params self.new.tx.sending) (length segment.new.steps) }
        ensures lanes { AreSameLanes lanes.old lanes.new }
        ensures room { segment.new.room ≡ segment.old.room }
        ensures link { self.new.link ≡ self.old.link }
    {
        self.next = happened.next;
        segment.begin(happened.rx_reset);
        let most = self.most_ticks(s, t);
        self.plan_tick(s, t, happened.tx_reset, happened.rx_reset, lanes, segment);
        segment.set_gives(self.rx.is_running());
        for n in 1..most {
            if segment.decides() {
                break;
            }
            self.pass();
            self.plan_tick(s, t + n, false, false, lanes, segment);
        }
    }

    // How many ticks from tick `t` on have no event after the first, within a period and the run.
    fn most_ticks(&self, s: &Scenario, t: u32) -> u32
        requires tick { t < s.now.ticks }
        requires link { s.now.link ≡ Some self.now.link }
        requires next { (plan : Plan) → plan_of s.now ≡ Some plan
            → self.now.next ≡ are_past plan (t + 1) }
        ensures some { 1 ≤ result }
        ensures short { result ≤ period self.now.link.params }
        ensures within { t + result ≤ s.now.ticks }
        ensures calm { (plan : Plan) → plan_of s.now ≡ Some plan → (i : ℕ) → 0 < i → i < result
            → are_past plan (t + i) ≡ are_past plan (t + i + 1) }
    {
        let end = s.ticks.min(t + self.link.shape().period());
        match s.events.as_slice().get(self.next) {
            Some(event) => end.min(event.tick) - t,
            None => end - t,
        }
    }

    // Plans tick `t`.
    fn plan_tick(
        &mut self,
        s: &Scenario,
        t: u32,
        tx_reset: bool,
        rx_reset: bool,
        lanes: &mut Lanes,
        segment: &mut Segment,
    )
        requires link { s.now.link ≡ Some self.old.link }
        requires tick { t < s.now.ticks }
        requires few { length segment.old.steps < 2 ^ 32 }
        requires room { length segment.old.steps < segment.old.room }
        requires short { length segment.old.steps < period self.old.link.params }
        requires count { length lanes.old ≡ self.old.link.params.l }
        requires widths { HaveWidths lanes.old }
        requires lanes { (lane : ℕ) (d : LanePair) → lane < length lanes.old
            → params_in (get_or lanes.old lane d).lane.tx ≡ self.old.link.params }
        requires stands { (plan : Plan) → plan_of s.now ≡ Some plan
            → StandAt self.old plan t
            × (tx_reset ≡ is_reset plan TxDevice t) × (rx_reset ≡ is_reset plan RxDevice t) }
        ensures planned { (plan : Plan) → plan_of s.now ≡ Some plan
            → HasPlannedTick segment.old segment.new self.old self.new tx_reset plan t }
        ensures octets { ArePut lanes.old lanes.new s.now.wire.items (length segment.old.steps) self.new.tx.handed }
        ensures lanes { AreSameLanes lanes.old lanes.new }
        ensures room { (segment.new.room ≡ segment.old.room) × (segment.new.gives ≡ segment.old.gives)
            × (segment.new.rx_reset ≡ segment.old.rx_reset) }
        ensures same { (self.new.link ≡ self.old.link) × (self.new.next ≡ self.old.next) }
    {
        let sent = self.tx.tick(s, &self.link, t, tx_reset);
        let told = self.rx.tell(s, &self.link, t, rx_reset);
        let wire = s.wire.as_slice();
        lanes.put(wire, segment.len() as u32, self.tx.handed());
        let step = Step {
            tx: sent.order,
            rx: told.told,
        };
        let edges = Edges {
            tx: sent.off,
            rx: told.off,
        };
        segment.push(step, edges, told.decides);
    }

    // The last tick is over, and the receiver decided nothing in it.
    fn pass(&mut self)
        ensures passed { (plan : Plan) (t : ℕ) → self.old.link ≡ plan.link
            → HasSentTick self.old.tx plan (run_of plan t)
            → HasToldTick self.old.rx plan (run_of plan t)
            → (moment_of plan (run_of plan t)).decides ≡ false → StandAt self.new plan (suc t) }
        ensures sending { self.new.tx.sending ≡ self.old.tx.sending }
        ensures same { (self.new.link ≡ self.old.link) × (self.new.next ≡ self.old.next) }
    {
        self.rx.rest();
        self.tx.end(is_low(self.rx.stage()));
    }

    /// The last tick of a segment, tick `t`, is over: what the receiver decided in it, on the
    /// reports of the lanes.
    pub fn end(&mut self, s: &Scenario, t: u32, lanes: &Lanes, decides: bool) -> Decision
        requires link { IsTrue (is_some s.now.link) }
        requires told { (plan : Plan) → plan_of s.now ≡ Some plan
            → HasToldTick self.old.rx plan (run_of plan t) }
        requires lanes { (plan : Plan) → plan_of s.now ≡ Some plan
            → HaveRunLanes lanes.now plan (lane_stepped (kind_of plan.link.params) plan (run_of plan t)) }
        ensures ended { (plan : Plan) → plan_of s.now ≡ Some plan
            → decides ≡ (moment_of plan (run_of plan t)).decides
            → IsEnded result self.new.rx plan (run_of plan t) }
        ensures sent { (plan : Plan) → plan_of s.now ≡ Some plan
            → HasSentTick self.old.tx plan (run_of plan t)
            → decides ≡ (moment_of plan (run_of plan t)).decides
            → HasSentRun self.new.tx plan (run_of plan (suc t)) }
        ensures sending { self.new.tx.sending ≡ self.old.tx.sending }
        ensures same { self.new ≡ record self.old { tx = self.new.tx; rx = self.new.rx } }
    {
        let decision = self.rx.end(s, t, lanes, decides);
        self.tx.end(is_low(self.rx.stage()));
        decision
    }

    /// Whether the link runs after the last tick.
    pub fn is_released(&self) -> bool
        ensures { (plan : Plan) (t : ℕ) → HasReceivedRun self.now.rx plan (run_of plan (suc t))
            → result ≡ is_running (moment_of plan (run_of plan t)).stage }
    {
        self.rx.is_run()
    }

    /// Hands out the alarms of the last decision, in place of these.
    pub fn take_alarms(&mut self, alarms: &mut AlarmRow)
        ensures alarms { alarms.new ≡ self.old.rx.alarms }
        ensures same { self.new ≡ record self.old { rx = record self.old.rx { alarms = alarms.old } } }
    {
        self.rx.take_alarms(alarms);
    }
}

// Whether SYNC~ is low at this stage of the receiver.
fn is_low(stage: Stage) -> bool
    ensures { result ≡ is_hunting stage }
{
    match stage {
        Stage::Hunt => true,
        Stage::Wait | Stage::Run => false,
    }
}
