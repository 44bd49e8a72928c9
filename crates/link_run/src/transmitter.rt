//! The transmitter of a run.
ghost use Rattle.std.specs.Prelude.{◌≡◌, ◌≤◌, ◌+◌, ◌<◌, ◌*◌, [], ℕ, List, All, None, Some, length, if◌then◌else◌, true, IfOk, IfSome, ◌++◌, ◌∷◌};
ghost use Rattle.link_params.specs.declared.alarms.Device.TheVariants.{Tx as TxDevice};
ghost use Rattle.link_params.specs.declared.fields.Params.{Params as ParamsValue};
ghost use Rattle.link_params.specs.Laws.{is_b};
ghost use Rattle.scenario.specs.Plans.{Plan, plan_of};
ghost use Rattle.bring_up.specs.Decisions.{is_hunting};
ghost use Rattle.link_model.specs.kept.Before.{levels_after, observed_before};
ghost use Rattle.link_model.specs.Edges.{is_reset, phase as phase_of};
ghost use Rattle.link_model.specs.Kinds.{moment_of};
ghost use Rattle.link_model.specs.Moments.{History};
ghost use Rattle.link_model.specs.Orders.{Observed};
ghost use Rattle.link_model.specs.Sends.{data_place};
ghost use Rattle.link_run.specs.kept.Seen.{HasSynced};
ghost use Rattle.link_run.specs.kept.Sendings.{HasObserved, next_of};
ghost use Rattle.link_run.specs.kept.Transmitters.{HasSentRun, HasSentTick, IsSentTick, Observes};

use crate::device_clock::DeviceClock;
use crate::feed::Feed;
use crate::sending::Sending;
use crate::sync_line::SyncLine;
use crate::tx_tick::TxTick;
use jesd_base::NoMemory;
use link_params::{Device, Link, Mode, TxOrder};
use scenario::Scenario;
use std::alloc::Global;
use std::marker::Model;

/// The transmitter's clock, SYNC~ as it sees it, where it stands, the frames that go in, and what
/// each lane is handed in a tick.
#[derive(Drop)]
pub struct Transmitter {
    clock: DeviceClock,
    sync: SyncLine,
    sending: Sending,
    feed: Feed,
    handed: Vec<u64>,
}

impl Model for Transmitter {
    ghost use Rattle.std.specs.Prelude.{◌≡◌, length};
    ghost use Rattle.link_run.specs.kept.Transmitters.{TxEnd};

    ghost Value = { TxEnd };

    ghost view = { λ t. record {
      clock = t.clock;
      sync = t.sync;
      sending = t.sending;
      feed = t.feed;
      handed = t.handed.items;
    } };

    ghost invariant = { λ t. length t.handed.items ≡ t.feed.params.l };
}

impl Transmitter {
    /// The transmitter before the first tick of a run; `NoMemory` where there is none.
    pub fn open(alloc: Global, s: &Scenario, link: &Link) -> Result<Transmitter, NoMemory>
        ensures begins { (plan : Plan) → plan_of s.now ≡ Some plan → plan.link ≡ link.now
            → IfOk result (λ t. HasSentRun t plan []) }
        ensures idle { (p : ParamsValue) → IfOk result (λ t. next_of p t.sending ≡ None) }
    {
        let params = link.shape().params();
        let Ok(handed) = vec![in alloc; 0u64; s.shape.lanes() as usize] else {
            return Err(NoMemory);
        };
        Ok(Transmitter {
            clock: DeviceClock::new(link, &s.jitters, Device::Tx),
            sync: SyncLine::open(alloc, link.timing().sync_delay)?,
            sending: Sending::new(params.mode),
            feed: Feed::open(alloc, s)?,
            handed,
        })
    }

    /// Tick `t`; `reset`: the transmitter is reset in it.
    pub fn tick(&mut self, s: &Scenario, link: &Link, t: u32, reset: bool) -> TxTick
        requires tick { t < 1048576 }
        requires begun { self.old.feed.begun ≤ 8 * t }
        requires shape { s.now.shape ≡ self.old.feed.params }
        requires link { link.now.params ≡ self.old.feed.params }
        ensures sent { (plan : Plan) (h : History) → plan_of s.now ≡ Some plan
            → plan.link ≡ link.now → HasSentRun self.old plan h → t ≡ length h
            → reset ≡ is_reset plan TxDevice t → IsSentTick result self.old self.new plan h reset }
        ensures small { is_b self.old.feed.params.mode ≡ true → All (λ v. v < 256) self.new.handed }
        ensures place { IfSome result.place (λ x. x < 1024) }
        ensures begun { self.new.feed.begun ≤ 8 * (t + 1) }
        ensures same { self.new.feed.params ≡ self.old.feed.params }
    {
        let clock = self.clock.tick(&s.jitters, t, reset);
        let order = observe(&mut self.sending, &self.sync, link, clock.phase, reset);
        let place = data_place(order);
        self.feed.hand(s, place, &mut self.handed);
        TxTick {
            off: clock.off,
            order,
            place,
        }
    }

    /// The tick is over: SYNC~ is low or high after it.
    pub fn end(&mut self, low: bool)
        ensures ended { (plan : Plan) (h : History) → HasSentTick self.old plan h
            → low ≡ is_hunting (moment_of plan h).stage
            → HasSentRun self.new plan (h ++ moment_of plan h ∷ []) }
        ensures same { self.new ≡ record self.old { sync = self.new.sync } }
    {
        self.sync.push(low);
    }

    /// What each lane is handed in the last tick, lane 0's first: the octets of the tick as one
    /// number, the first one most significant.
    pub fn handed(&self) -> &[u64]
        ensures handed { result.now ≡ self.now.handed }
        ensures lanes { length result.now ≡ self.now.feed.params.l }
    {
        &self.handed
    }
}

// The order of a tick, at this phase of the transmitter's clock.
fn observe(
    sending: &mut Sending,
    sync: &SyncLine,
    link: &Link,
    phase: Option<u32>,
    reset: bool,
) -> TxOrder
    ensures observes { (plan : Plan) (h : History) → plan.link ≡ link.now
        → HasSynced sync.now plan.link.timing.sync_delay (levels_after h)
        → HasObserved sending.old plan.link.params (observed_before plan h)
        → phase ≡ phase_of plan TxDevice (length h) → reset ≡ is_reset plan TxDevice (length h)
        → Observes result sending.old sending.new plan h reset }
    ensures place { IfSome (data_place result) (λ x. x < 1024) }
{
    let shape = link.shape();
    reset_if(sending, shape.params().mode, reset);
    sending.tick(shape.period(), phase, sync.is_low())
}

fn reset_if(sending: &mut Sending, mode: Mode, reset: bool)
    ensures observed { (p : ParamsValue) (ticks : List Observed) → p.mode ≡ mode
        → HasObserved sending.old p ticks
        → HasObserved sending.new p (if reset then [] else ticks) }
    ensures next { (p : ParamsValue)
        → next_of p sending.new ≡ (if reset then None else next_of p sending.old) }
{
    if reset {
        *sending = Sending::new(mode);
    }
}

/// The place of a tick's data in the multiframe or extended multiblock.
pub(crate) fn data_place(order: TxOrder) -> Option<u32>
    ensures { result ≡ data_place order }
{
    match order {
        TxOrder::Data { place, first: _ } | TxOrder::Block { place, first: _ } => Some(place),
        TxOrder::Comma | TxOrder::Ilas(_) | TxOrder::Silent => None,
    }
}
