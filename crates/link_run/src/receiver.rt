//! The receiver of a run.
ghost use Rattle.std.specs.Prelude.{◌≡◌, ◌<◌, ◌≤◌, ◌+◌, ◌-◌, ◌*◌, ◌%◌, ◌^◌, ◌++◌, ◌∷◌, ◌||◌, [], List, None, Some, false, length, is_some, IsTrue, IfOk, if◌then◌else◌};
ghost use Rattle.link_params.specs.declared.fields.Params.{Params as ParamsValue};
ghost use Rattle.link_params.specs.declared.fields.Timing.{Timing as TimingValue};
ghost use Rattle.link_params.specs.declared.lane_report.LaneReport.{LaneReport as ReportValue};
ghost use Rattle.link_params.specs.declared.alarms.Device.TheVariants.{Rx as RxDevice};
ghost use Rattle.bring_up.specs.declared.stage.Decision.TheVariants as decision;
ghost use Rattle.bring_up.specs.kept.Controls.{HasDecided};
ghost use Rattle.bring_up.specs.Decisions.{is_running};
ghost use Rattle.scenario.specs.Plans.{Plan, plan_of};
ghost use Rattle.link_model.specs.Edges.{is_reset};
ghost use Rattle.link_model.specs.Kinds.{kind_of, moment_of, run_of};
ghost use Rattle.link_model.specs.Moments.{History};
ghost use Rattle.link_model.specs.Run.{is_at};
ghost use Rattle.link_model.specs.Hunts.{is_hunt, standing};
ghost use Rattle.link_model.specs.Receives.{offset_at};
ghost use Rattle.link_run.specs.kept.LaneRuns.{HaveRunLanes};
ghost use Rattle.link_model.specs.kept.LaneRuns.{lane_stepped};
ghost use Rattle.link_run.specs.kept.ReceiverRuns.{Decides, HasReceivedRun, HasToldTick, IsEnded, IsToldTick};

use crate::device_clock::DeviceClock;
use crate::lanes::Lanes;
use crate::rx_tick::RxTick;
use bring_up::{AlarmRow, Control, Decision, Stage};
use jesd_base::NoMemory;
use link_params::{Device, IlasState, LaneReport, Link, RxOrder};
use scenario::Scenario;
use std::alloc::Global;
use std::marker::Model;
use std::mem::swap;

/// The receiver's clock and its control.
#[derive(Drop)]
pub struct Receiver {
    clock: DeviceClock,
    control: Control,
    // A hunt begins with the next tick.
    hunts: bool,
    // The offset of a start in a tick of phase 0.
    first: u32,
    reports: Vec<LaneReport>,
    alarms: AlarmRow,
}

impl Model for Receiver {
    ghost use Rattle.std.specs.Prelude.{◌≡◌, Some};
    ghost use Rattle.link_model.specs.Receives.{offset_at};
    ghost use Rattle.link_run.specs.kept.ReceiverRuns.{RxEnd};

    ghost Value = { RxEnd };

    ghost view = { λ r. record {
      clock = r.clock;
      control = r.control;
      hunts = r.hunts;
      reports =
          r.reports.items;
      alarms = r.alarms;
    } };

    ghost invariant = { λ r. r.first ≡ offset_at r.clock.link.params r.clock.link.timing (Some 0) };
}

impl Receiver {
    /// The receiver of this link before the first tick. `NoMemory` where there is too little of it.
    pub fn open(alloc: Global, s: &Scenario, link: &Link) -> Result<Receiver, NoMemory>
        ensures begins { (plan : Plan) → plan_of s.now ≡ Some plan → plan.link ≡ link.now
            → IfOk result (λ r. HasReceivedRun r plan []) }
    {
        let idle = LaneReport {
            locked: false,
            started: None,
            lost: false,
            ilas: IlasState::Idle,
        };
        let Ok(reports) = vec![in alloc; idle; link.shape().lanes() as usize] else {
            return Err(NoMemory);
        };
        Ok(Receiver {
            clock: DeviceClock::new(link, &s.jitters, Device::Rx),
            control: Control::new(link),
            hunts: true,
            first: first_offset(link),
            reports,
            alarms: AlarmRow::new(),
        })
    }

    /// The beginning of tick `t`; `reset`: the receiver is reset in it.
    pub fn tell(&mut self, s: &Scenario, link: &Link, t: u32, reset: bool) -> RxTick
        requires tick { t < 1048576 }
        ensures { (plan : Plan) (h : History) → plan_of s.now ≡ Some plan → plan.link ≡ link.now
            → HasReceivedRun self.old plan h → t ≡ length h
            → reset ≡ is_reset plan RxDevice t → IsToldTick result self.new plan h }
    {
        reset_if(&mut self.control, reset);
        let clock = self.clock.tick(&s.jitters, t, reset);
        let told = RxOrder {
            hunt: either(reset, self.hunts),
            armed: !self.control.sync_low(),
            offset: offset_of(link, self.first, clock.phase),
        };
        RxTick {
            off: clock.off,
            told,
            decides: is_at(clock.phase, link.timing().rbd),
        }
    }

    /// The end of tick `t`: where it is a release point the receiver decides, on the reports of the
    /// lanes. The alarms of the decision are kept.
    pub fn end(&mut self, s: &Scenario, t: u32, lanes: &Lanes, decides: bool) -> Decision
        requires link { IsTrue (is_some s.now.link) }
        requires told { (plan : Plan) → plan_of s.now ≡ Some plan
            → HasToldTick self.old plan (run_of plan t) }
        requires lanes { (plan : Plan) → plan_of s.now ≡ Some plan
            → HaveRunLanes lanes.now plan (lane_stepped (kind_of plan.link.params) plan (run_of plan t)) }
        ensures { (plan : Plan) → plan_of s.now ≡ Some plan
            → decides ≡ (moment_of plan (run_of plan t)).decides
            → IsEnded result self.new plan (run_of plan t) }
    {
        if !decides {
            self.rest();
            return Decision::Stay;
        }
        let decision = self.decide(s, t, lanes);
        self.hunts = is_hunt(decision);
        decision
    }

    /// The end of a tick that is no release point: nothing is decided.
    pub fn rest(&mut self)
        ensures { (plan : Plan) (h : History) → HasToldTick self.old plan h
            → (moment_of plan h).decides ≡ false → IsEnded decision.Stay self.new plan h }
    {
        self.hunts = false;
        self.alarms.clear();
    }

    fn decide(&mut self, s: &Scenario, t: u32, lanes: &Lanes) -> Decision
        requires link { IsTrue (is_some s.now.link) }
        requires told { (plan : Plan) → plan_of s.now ≡ Some plan
            → HasToldTick self.old plan (run_of plan t) }
        requires lanes { (plan : Plan) → plan_of s.now ≡ Some plan
            → HaveRunLanes lanes.now plan (lane_stepped (kind_of plan.link.params) plan (run_of plan t)) }
        ensures { (plan : Plan) → plan_of s.now ≡ Some plan
            → Decides result self.old self.new plan (run_of plan t) }
    {
        lanes.report(&mut self.reports);
        self.alarms.clear();
        self.control.decide(&self.reports, &mut self.alarms)
    }

    /// Hands out the alarms of the last tick's decision, in place of these.
    pub fn take_alarms(&mut self, alarms: &mut AlarmRow)
        ensures alarms { alarms.new ≡ self.old.alarms }
        ensures same { self.new ≡ record self.old { alarms = alarms.old } }
    {
        swap(&mut self.alarms, alarms);
    }

    /// Whether the link runs, in a tick in which nothing is decided yet.
    pub fn is_running(&self) -> bool
        ensures { (plan : Plan) (h : History) → HasToldTick self.now plan h
            → result ≡ is_running (standing plan h).stage }
    {
        is_run(self.control.stage())
    }

    /// Whether the link runs after the last tick.
    pub fn is_run(&self) -> bool
        ensures { (plan : Plan) (h : History)
            → HasReceivedRun self.now plan (h ++ moment_of plan h ∷ [])
            → result ≡ is_running (moment_of plan h).stage }
    {
        is_run(self.stage())
    }

    /// The stage after the last tick.
    pub fn stage(&self) -> Stage
        ensures { (plan : Plan) (h : History)
            → HasReceivedRun self.now plan (h ++ moment_of plan h ∷ [])
            → result ≡ (moment_of plan h).stage }
    {
        self.control.stage()
    }
}

// Whether the link runs at this stage.
fn is_run(stage: Stage) -> bool
    ensures { result ≡ is_running stage }
{
    match stage {
        Stage::Run => true,
        Stage::Hunt | Stage::Wait => false,
    }
}

// Whether a decision is to hunt.
fn is_hunt(decision: Decision) -> bool
    ensures { result ≡ is_hunt decision }
{
    match decision {
        Decision::Hunt => true,
        Decision::Stay | Decision::Arm | Decision::Release => false,
    }
}

fn reset_if(control: &mut Control, reset: bool)
    ensures { (p : ParamsValue) (t : TimingValue) (before : List (List ReportValue))
        → HasDecided control.old p t before
        → HasDecided control.new p t (if reset then [] else before) }
{
    if reset {
        control.reset();
    }
}

fn either(a: bool, b: bool) -> bool
    ensures { result ≡ (a || b) }
{
    a || b
}

// The offset that a start would have at this phase of the receiver's clock. `first`: the one that it
// would have at phase 0.
fn offset_of(link: &Link, first: u32, phase: Option<u32>) -> u32
    ensures { first ≡ offset_at link.now.params link.now.timing (Some 0)
        → result ≡ offset_at link.now.params link.now.timing phase }
{
    let _timing = link.timing();
    match phase {
        Some(phase) => remainder(
            u64::from(first) + u64::from(phase),
            u64::from(link.shape().period()),
        ),
        None => 0,
    }
}

// A sum of two numbers, modulo the period: mostly both are below it.
fn remainder(sum: u64, period: u64) -> u32
    requires low { 1 ≤ period }
    requires high { period ≤ 1024 }
    ensures { result ≡ sum % period }
{
    if sum < period {
        sum as u32
    } else if sum - period < period {
        (sum - period) as u32
    } else {
        (sum % period) as u32
    }
}

// The offset that a start would have at a boundary of the receiver's clock.
fn first_offset(link: &Link) -> u32
    ensures { result ≡ offset_at link.now.params link.now.timing (Some 0) }
{
    let _timing = link.timing();
    offset_at(
        u64::from(link.rx_edge()),
        u64::from(link.tx_edge()) + u64::from(link.wait()),
        u64::from(link.wait()),
        u64::from(link.shape().period()),
    )
}

// How far a tick is from another one, modulo the period; so many periods and one more are added
// first.
fn offset_at(later: u64, earlier: u64, wait: u64, period: u64) -> u32
    requires small { later < 2 ^ 40 }
    requires wait { wait ≤ 64 }
    requires low { 1 ≤ period }
    requires high { period ≤ 1024 }
    requires within { earlier ≤ later + (wait + 1) * period }
    ensures { result ≡ (later + (wait + 1) * period - earlier) % period }
{
    ((later + (wait + 1) * period - earlier) % period) as u32
}

// Whether the phase is this one.
fn is_at(phase: Option<u32>, wanted: u32) -> bool
    ensures { result ≡ is_at phase wanted }
{
    match phase {
        Some(phase) => phase == wanted,
        None => false,
    }
}
