//! The receiver end of a lane of either kind.
ghost use Rattle.std.specs.Prelude.{◌≡◌, ◌<◌, ◌+◌, ◌-◌, ◌++◌, ◌∷◌, ◌^◌, [], ℕ, List, true, false, length, get_or, IfOk};
ghost use Rattle.jesd_base.specs.Bits.{bits as bits_of};
ghost use Rattle.lane_b.specs.kept.Gives.{given};
ghost use Rattle.lane_c.specs.kept.Receivers.{IsArmedOn};
ghost use Rattle.link_params.specs.declared.fields.Params.{Params as ParamsValue};
ghost use Rattle.link_params.specs.declared.fields.Timing.{Timing as TimingValue};
ghost use Rattle.link_params.specs.Lanes.{Placed, Taken};
ghost use Rattle.link_params.specs.Numbers.{depth, width};
ghost use Rattle.link_model.specs.Kinds.{kind_of};
ghost use Rattle.lane_threads.specs.kept.LaneEnds.{HasTaken, buffer_in, rx_width};

use jesd_base::NoMemory;
use lane_b::RxLaneB;
use lane_c::RxLaneC;
use link_params::{LaneCell, LaneReport, Link, Mode, RxOrder};
use std::alloc::Global;

/// The receiver end of a lane: 8b/10b or 64b/66b.
#[derive(Drop)]
pub enum RxLane {
    /// An 8b/10b lane.
    B(RxLaneB),
    /// A 64b/66b lane.
    C(RxLaneC),
}

impl RxLane {
    /// Lane `lane` of this link, counted from 0, whose hunt begins with its first tick. All its
    /// memory is taken here; `NoMemory` where there is none.
    pub fn open(alloc: Global, link: &Link, lane: u32) -> Result<RxLane, NoMemory>
        requires { lane < link.now.params.l }
        ensures taken { IfOk result (λ r. HasTaken r link.now.params link.now.timing lane [] 0) }
        ensures depth { IfOk result (λ r. (buffer_in r).depth ≡ depth link.now.params link.now.timing) }
        ensures width { IfOk result (λ r. rx_width r ≡ width link.now.params) }
    {
        match link.shape().params().mode {
            Mode::B => Ok(RxLane::B(RxLaneB::open(alloc, link, lane)?)),
            Mode::CCrc | Mode::CFec => Ok(RxLane::C(RxLaneC::open(alloc, link)?)),
        }
    }

    /// The bits of a tick, 10 or 66, the first one most significant, and what the lane is told with
    /// them.
    pub fn take(&mut self, order: &RxOrder, bits: u128)
        requires bits { bits < 2 ^ rx_width self.old }
        requires room { order.now.hunt ≡ false
            → length (buffer_in self.old).cells < (buffer_in self.old).depth }
        ensures goes_on { (p : ParamsValue) (t : TimingValue) (lane : ℕ) (taken : List Taken)
            (gave : ℕ) → HasTaken self.old p t lane taken gave → order.now.hunt ≡ false
            → IsArmedOn taken order.now
            → HasTaken self.new p t lane (taken ++ (record { order = order.now; word = bits_of (width p) bits }) ∷ []) gave }
        ensures begins { (p : ParamsValue) (t : TimingValue) (lane : ℕ) (taken : List Taken)
            (gave : ℕ) → HasTaken self.old p t lane taken gave → order.now.hunt ≡ true
            → HasTaken self.new p t lane ((record { order = order.now; word = bits_of (width p) bits }) ∷ []) 0 }
        ensures depth { (buffer_in self.new).depth ≡ (buffer_in self.old).depth }
        ensures width { rx_width self.new ≡ rx_width self.old }
    {
        match self {
            RxLane::B(lane) => lane.take(order, bits as u16),
            RxLane::C(lane) => lane.take(order, bits),
        }
    }

    /// The report after all that was taken since the hunt.
    pub fn report(&self) -> LaneReport
        ensures { (p : ParamsValue) (t : TimingValue) (lane : ℕ) (taken : List Taken) (gave : ℕ)
            → HasTaken self.now p t lane taken gave
            → result ≡ (kind_of p).report p t lane taken }
    {
        match self {
            RxLane::B(lane) => lane.report(),
            RxLane::C(lane) => lane.report(),
        }
    }

    /// How many entries wait in the elastic buffer.
    pub fn held(&self) -> u32
        ensures entries { (p : ParamsValue) (t : TimingValue) (lane : ℕ) (taken : List Taken)
            (gave : ℕ) → HasTaken self.now p t lane taken gave
            → result ≡ length ((kind_of p).entries p t lane taken) - gave }
        ensures count { result ≡ length (buffer_in self.now).cells }
    {
        match self {
            RxLane::B(lane) => lane.held(),
            RxLane::C(lane) => lane.held(),
        }
    }

    /// The oldest entry: nothing for a place of the alignment sequence.
    pub fn give(&mut self) -> Option<LaneCell>
        requires { 0 < length (buffer_in self.old).cells }
        ensures entry { (p : ParamsValue) (t : TimingValue) (lane : ℕ) (taken : List Taken)
            (gave : ℕ) → HasTaken self.old p t lane taken gave
            → result ≡ given (get_or ((kind_of p).entries p t lane taken) gave Placed) }
        ensures goes_on { (p : ParamsValue) (t : TimingValue) (lane : ℕ) (taken : List Taken)
            (gave : ℕ) → HasTaken self.old p t lane taken gave
            → HasTaken self.new p t lane taken (gave + 1) }
        ensures depth { (buffer_in self.new).depth ≡ (buffer_in self.old).depth }
        ensures width { rx_width self.new ≡ rx_width self.old }
    {
        match self {
            RxLane::B(lane) => lane.give(),
            RxLane::C(lane) => Some(lane.give()),
        }
    }
}
