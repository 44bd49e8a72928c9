//! The cells of the lanes, joined to frames.
ghost use Rattle.std.specs.Prelude.{◌≡◌, ◌+◌, [], ℕ, suc, Option, Some, length, if◌then◌else◌, IfOk, IsTrue};
ghost use Rattle.link_params.specs.declared.fields.Params.{Params as ParamsValue};
ghost use Rattle.link_model.specs.kept.LaneRuns.{LaneRun};
ghost use Rattle.bring_up.specs.Decisions.{is_running};
ghost use Rattle.scenario.specs.Limits.{is_order};
ghost use Rattle.scenario.specs.Plans.{Plan, plan_of};
ghost use Rattle.link_model.specs.Kinds.{moment_of, run_of};
ghost use Rattle.link_model.specs.kept.Before.{Columns};
ghost use Rattle.link_run.specs.kept.Collected.{CanCollect, Collects, HasCollected, IsLegalLink, lead_of};
ghost use Rattle.link_run.specs.kept.Ends.{ArePairs, HaveCells};
ghost use Rattle.link_run.specs.kept.Waits.{AreFilled, HaveRoom, HaveWaiting};
ghost use Rattle.link_params.specs.Numbers.{period};
ghost use Rattle.link_run.specs.kept.Gathered.{HasGathered};
ghost use Rattle.link_run.specs.kept.LaneRuns.{AreAt, HaveRings, HaveRunLanes};

use crate::deframer::Deframer;
use crate::lanes::Lanes;
use crate::waiting::Waiting;
use jesd_base::NoMemory;
use lane_threads::{CellEnd, Side};
use link_params::{Link, Mode, Shape};
use scenario::Scenario;
use std::alloc::Global;
use std::marker::Model;

/// The ends of the lanes' rings, the place of each lane in the frame, the cells that were taken from
/// the ends, in the order of the places, and the frame that is gathered from these.
#[derive(Drop)]
pub struct Collector {
    ends: Vec<CellEnd>,
    route: Vec<u32>,
    waiting: Vec<Waiting>,
    // The entries of a session that are places of the alignment sequence, and those that are still
    // to come.
    lead: u32,
    ahead: u32,
    deframer: Deframer,
}

impl Model for Collector {
    ghost use Rattle.std.specs.Prelude.{◌≡◌, ◌≤◌, length, IsTrue};
    ghost use Rattle.scenario.specs.Limits.{is_order};
    ghost use Rattle.link_run.specs.kept.Collected.{Collecting};

    ghost Value = { Collecting };

    ghost view = { λ c. record {
      ends = c.ends.items;
      route = c.route.items;
      waiting = c.waiting.items;
      lead = c.lead;
      ahead = c.ahead;
      gathering = c.deframer;
    } };

    ghost invariant = { λ c. (length c.waiting.items ≡ length c.ends.items) × (c.ahead ≤ c.lead)
        × IsTrue (is_order (length c.ends.items) c.route.items) };
}

impl Collector {
    /// A collector at these ends of the lanes of a scenario with this link, of which nothing was
    /// taken. All its memory is taken here; `NoMemory` where there is none.
    pub fn open(
        alloc: Global,
        s: &Scenario,
        link: &Link,
        ends: Vec<CellEnd>,
    ) -> Result<Collector, NoMemory>
        requires link { s.now.link ≡ Some link.now }
        requires ends { length ends.items ≡ link.now.params.l }
        ensures begins { (plan : Plan) → plan_of s.now ≡ Some plan
            → IfOk result (λ c. HasCollected c plan 0) }
        ensures ends { IfOk result (λ c. c.ends ≡ ends.items) }
        ensures empty { (plan : Plan) (t : ℕ) → IfOk result (λ c. HaveWaiting c.waiting plan t 0) }
    {
        let shape = link.shape();
        let lead = lead_of(link);
        let mut route = Vec::new(alloc);
        if route.extend_from_slice(s.route.as_slice()).is_err() {
            return Err(NoMemory);
        }
        Ok(Collector {
            ends,
            route,
            waiting: open_waiting(alloc, &shape)?,
            lead,
            ahead: lead,
            deframer: Deframer::open(alloc, &shape)?,
        })
    }

    /// The next tick, with which a hunt begins or not, and after which the link runs or not.
    pub fn take(&mut self, hunt: bool, runs: bool)
        requires can { CanCollect self.old hunt runs }
        ensures took { (s : Plan) (t n : ℕ) → IsLegalLink s → HasCollected self.old s t
            → HaveWaiting self.old.waiting s t (suc n)
            → hunt ≡ (moment_of s (run_of s t)).told.hunt
            → runs ≡ is_running (moment_of s (run_of s t)).stage → Collects self.new s t n }
        ensures ends { self.new.ends ≡ self.old.ends }
    {
        self.begin(hunt);
        if !runs {
            self.deframer.rest();
        } else if self.ahead > 0 {
            self.ahead -= 1;
            self.deframer.rest();
        } else {
            self.deframer.take(&mut self.waiting);
        }
    }

    // The next tick begins, and with it a hunt or not.
    fn begin(&mut self, hunt: bool)
        ensures gathered { (p : ParamsValue) (columns : Columns)
            → HasGathered self.old.gathering p columns
            → HasGathered self.new.gathering p (if hunt then [] else columns) }
        ensures same { self.new ≡ record self.old {
          ahead = if hunt then self.old.lead else self.old.ahead;
          gathering = self.new.gathering;
        } }
        ensures params { self.new.gathering.params ≡ self.old.gathering.params }
    {
        if hunt {
            self.deframer.clear();
            self.ahead = self.lead;
        }
    }

    /// The ends meet the lanes: they know of all cells that were sent and not received.
    pub fn meet(&mut self, lanes: &mut Lanes)
        requires pairs { ArePairs lanes.old self.old.ends }
        ensures pairs { ArePairs lanes.new self.new.ends }
        ensures knows { (s : Plan) (t n : ℕ) → HaveRings lanes.old s (t + n) (t + n)
            → HaveCells self.old.ends s t 0 → HaveCells self.new.ends s t n }
        ensures lanes { (s : Plan) (runs : ℕ → LaneRun) → HaveRunLanes lanes.old s runs
            → HaveRunLanes lanes.new s runs }
        ensures rings { (s : Plan) (given held : ℕ) → HaveRings lanes.old s given held
            → HaveRings lanes.new s given held }
        ensures at { (p : ParamsValue) (next : Option ℕ) → AreAt lanes.old p next
            → AreAt lanes.new p next }
        ensures same { self.new ≡ record self.old { ends = self.new.ends } }
    {
        lanes.meet(self.ends.as_mut_slice());
    }

    /// The end of each lane's ring, in ascending lanes.
    pub fn ends(&self) -> &[CellEnd]
        ensures { result.now ≡ self.now.ends }
    {
        self.ends.as_slice()
    }

    /// The frames that were delivered in the last tick, oldest first, and how many octets of each
    /// lane are there of the one that is not whole.
    pub fn delivered(&self) -> &Deframer
        ensures { result.now ≡ self.now.gathering }
    {
        &self.deframer
    }
}

impl Side for Collector {
    ghost runs = { λ a b. (b ≡ record a { ends = b.ends; waiting = b.waiting })
        × AreFilled a.waiting b.waiting a.ends b.ends a.route };

    fn run(&mut self) {
        let (waiting, ends) = (self.waiting.as_mut_slice(), self.ends.as_mut_slice());
        fill_each(waiting, ends, self.route.as_slice());
    }
}

// Takes the cells that are known to be at the end of each lane's ring; they wait at the place of the
// lane in the frame.
fn fill_each(waiting: &mut [Waiting], ends: &mut [CellEnd], route: &[u32])
    requires count { length waiting.old ≡ length ends.old }
    requires order { IsTrue (is_order (length ends.old) route.now) }
    ensures { AreFilled waiting.old waiting.new ends.old ends.new route.now }
{
    for (lane, end) in ends.iter_mut().enumerate() {
        waiting[route[lane] as usize].fill(end);
    }
}

// Room for the cells of a period of each lane.
fn open_waiting(alloc: Global, shape: &Shape) -> Result<Vec<Waiting>, NoMemory>
    ensures count { IfOk result (λ v. length v.items ≡ shape.now.l) }
    ensures empty { (s : Plan) (t : ℕ) → IfOk result (λ v. HaveWaiting v.items s t 0) }
    ensures room { IfOk result (λ v. HaveRoom v.items (period shape.now)) }
{
    let mut waiting = Vec::new(alloc);
    for _ in 0..shape.lanes() {
        if waiting.push(Waiting::open(alloc, shape.period())?).is_err() {
            return Err(NoMemory);
        }
    }
    Ok(waiting)
}

// The entries of a lane that are places of the alignment sequence (JESD204B.01 clause 5.3.3.5,
// initial lane alignment).
fn lead_of(link: &Link) -> u32
    ensures { result ≡ lead_of link.now.params }
{
    let shape = link.shape();
    match shape.params().mode {
        Mode::B => 4 * shape.period(),
        Mode::CCrc | Mode::CFec => 0,
    }
}
