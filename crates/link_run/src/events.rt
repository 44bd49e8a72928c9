//! The events of a tick.
ghost use Rattle.std.specs.Prelude.{◌≡◌, ◌≤◌, ◌<◌, ◌+◌, nat_lt, ℕ, length, fold, count_by, All, IsTrue, Option};
ghost use Rattle.std.specs.List.{list_any};
ghost use Rattle.std.specs.List.Sorted.{IsNonDecreasingBy};
ghost use Rattle.link_params.specs.declared.fields.Params.{Params as ParamsValue};
ghost use Rattle.link_params.specs.declared.alarms.Device.TheVariants.{Tx as TxDevice, Rx as RxDevice};
ghost use Rattle.scenario.specs.declared.plan.Event.{Event as EventValue};
ghost use Rattle.scenario.specs.Limits.{what_fits};
ghost use Rattle.scenario.specs.Plans.{Plan, plan_of};
ghost use Rattle.link_model.specs.Carried.{dead_after, delay_after};
ghost use Rattle.link_model.specs.Edges.{is_reset, resets};
ghost use Rattle.link_run.specs.kept.LaneRuns.{AreAt, HaveRunLanes, KeepRings};
ghost use Rattle.link_model.specs.kept.LaneRuns.{LaneRun};
ghost use Rattle.link_run.specs.kept.Happened.{AreAsBefore, HaveReach, are_past, as_of};

use crate::happened::Happened;
use crate::lanes::Lanes;
use link_params::Device;
use scenario::{Event, Scenario, What};

/// Does to the lanes what the events of tick `t` say, in the order of their records; `from` is the
/// place of the first event that is not of an earlier tick. Without a link nothing happens.
pub fn happen(s: &Scenario, lanes: &mut Lanes, from: usize, t: u32) -> Happened
    requires tick { t < s.now.ticks }
    requires from { (plan : Plan) → plan_of s.now ≡ Some plan → from ≡ are_past plan t }
    requires lanes { length lanes.old ≡ s.now.shape.l }
    requires ran { (plan : Plan) → plan_of s.now ≡ Some plan
        → (runs : ℕ → LaneRun) × HaveRunLanes lanes.old plan runs × AreAsBefore plan t runs }
    ensures tx { (plan : Plan) → plan_of s.now ≡ Some plan
        → result.tx_reset ≡ is_reset plan TxDevice t }
    ensures rx { (plan : Plan) → plan_of s.now ≡ Some plan
        → result.rx_reset ≡ is_reset plan RxDevice t }
    ensures next { (plan : Plan) → plan_of s.now ≡ Some plan → result.next ≡ are_past plan (t + 1) }
    ensures lanes { (plan : Plan) (runs : ℕ → LaneRun) → plan_of s.now ≡ Some plan
        → HaveRunLanes lanes.old plan runs → AreAsBefore plan t runs
        → HaveRunLanes lanes.new plan (λ lane. as_of plan t lane (runs lane)) }
    ensures at { (p : ParamsValue) (next : Option ℕ) → AreAt lanes.old p next
        → AreAt lanes.new p next }
    ensures rings { KeepRings lanes.old lanes.new }
    ensures count { length lanes.new ≡ length lanes.old }
{
    if s.link.is_none() {
        return Happened {
            tx_reset: false,
            rx_reset: false,
            next: from,
        };
    }
    let events = s.events.as_slice();
    let next = end_of(events, from, t);
    let now = &events[from..next];
    apply_all(lanes, now);
    Happened {
        tx_reset: has_reset(now, Device::Tx),
        rx_reset: has_reset(now, Device::Rx),
        next,
    }
}

// The place of the first event of a tick after t.
fn end_of(events: &[Event], from: usize, t: u32) -> usize
    requires ordered { IsNonDecreasingBy (λ (e : EventValue). e.tick) events.now }
    requires from { from ≡ count_by (λ (e : EventValue). nat_lt e.tick t) events.now }
    ensures end { result ≡ count_by (λ (e : EventValue). nat_lt e.tick (t + 1)) events.now }
    ensures order { from ≤ result }
    ensures within { result ≤ length events.now }
{
    let mut end = from;
    while end < events.len() && events[end].tick == t {
        end += 1;
    }
    end
}

// One of these is a reset of the device.
fn has_reset(events: &[Event], device: Device) -> bool
    ensures { result ≡ list_any (λ (e : EventValue). resets device e.what) events.now }
{
    for event in events {
        if is_reset_of(event.what, device) {
            return true;
        }
    }
    false
}

fn is_reset_of(what: What, device: Device) -> bool
    ensures { result ≡ resets device what }
{
    match what {
        What::Reset(of) => of == device,
        What::Delay { .. } | What::Dead { .. } => false,
    }
}

// Does to the lanes what these events say, one after the other.
fn apply_all(lanes: &mut Lanes, events: &[Event])
    requires ran { (s : Plan) × (runs : ℕ → LaneRun) × HaveRunLanes lanes.old s runs
        × HaveReach s runs × All (λ (e : EventValue). IsTrue (what_fits s.link.params e.what)) events.now }
    ensures goes_on { (s : Plan) (runs : ℕ → LaneRun) → HaveRunLanes lanes.old s runs
        → HaveRunLanes lanes.new s (λ lane. record (runs lane) {
          delay = fold (λ d (e : EventValue). delay_after lane d e.what) (runs lane).delay events.now;
          dead = fold (λ d (e : EventValue). dead_after lane d e.what) (runs lane).dead events.now;
        }) }
    ensures at { (p : ParamsValue) (next : Option ℕ) → AreAt lanes.old p next
        → AreAt lanes.new p next }
    ensures rings { KeepRings lanes.old lanes.new }
    ensures count { length lanes.new ≡ length lanes.old }
{
    for event in events {
        apply(lanes, event.what);
    }
}

// Does to the lanes what one event says.
fn apply(lanes: &mut Lanes, what: What)
    requires ran { (s : Plan) × (runs : ℕ → LaneRun) × HaveRunLanes lanes.old s runs
        × HaveReach s runs × IsTrue (what_fits s.link.params what) }
    ensures goes_on { (s : Plan) (runs : ℕ → LaneRun) → HaveRunLanes lanes.old s runs
        → HaveRunLanes lanes.new s (λ lane. record (runs lane) {
          delay = delay_after lane (runs lane).delay what;
          dead = dead_after lane (runs lane).dead what;
        }) }
    ensures at { (p : ParamsValue) (next : Option ℕ) → AreAt lanes.old p next
        → AreAt lanes.new p next }
    ensures rings { KeepRings lanes.old lanes.new }
    ensures count { length lanes.new ≡ length lanes.old }
{
    match what {
        What::Reset(_) => {}
        What::Delay { lane, bits } => lanes.set_delay(lane, bits),
        What::Dead { lane, on } => lanes.set_dead(lane, on),
    }
}
