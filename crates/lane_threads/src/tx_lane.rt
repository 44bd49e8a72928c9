//! The transmitter end of a lane of either kind.
ghost use Rattle.std.specs.Prelude.{◌≡◌, ◌<◌, ◌++◌, ◌∷◌, ◌^◌, [], ℕ, List, None};
ghost use Rattle.jesd_base.specs.Bits.{bits};
ghost use Rattle.link_params.specs.declared.fields.Params.{Params as ParamsValue};
ghost use Rattle.link_params.specs.Lanes.{Handed};
ghost use Rattle.link_params.specs.Laws.{is_b};
ghost use Rattle.link_params.specs.Numbers.{width};
ghost use Rattle.link_model.specs.Kinds.{kind_of};
ghost use Rattle.lane_threads.specs.kept.LaneEnds.{HasSent, IsSmall, MayFollow, next_after, next_in, params_in, tx_width};

use lane_b::TxLaneB;
use lane_c::TxLaneC;
use link_params::{Link, Mode, TxOrder};

/// The transmitter end of a lane: 8b/10b or 64b/66b.
#[derive(Drop)]
pub enum TxLane {
    /// An 8b/10b lane.
    B(TxLaneB),
    /// A 64b/66b lane.
    C(TxLaneC),
}

impl TxLane {
    /// Lane `lane` of this link, counted from 0, as after a reset.
    pub fn new(link: &Link, lane: u32) -> TxLane
        requires { lane < link.now.params.l }
        ensures sent { HasSent result link.now.params lane [] }
        ensures next { next_in result ≡ None }
        ensures params { params_in result ≡ link.now.params }
        ensures width { tx_width result ≡ width link.now.params }
    {
        match link.shape().params().mode {
            Mode::B => TxLane::B(TxLaneB::new(link, lane)),
            Mode::CCrc | Mode::CFec => TxLane::C(TxLaneC::new(link)),
        }
    }

    /// The bits of a tick: 10 or 66.
    pub fn width(&self) -> u32
        ensures { result ≡ tx_width self.now }
    {
        match self {
            TxLane::B(_) => 10,
            TxLane::C(_) => 66,
        }
    }

    /// A reset.
    pub fn clear(&mut self)
        ensures sent { (p : ParamsValue) (lane : ℕ) (handed : List Handed)
            → HasSent self.old p lane handed → HasSent self.new p lane [] }
        ensures next { next_in self.new ≡ None }
        ensures same { params_in self.new ≡ params_in self.old }
        ensures width { tx_width self.new ≡ tx_width self.old }
    {
        match self {
            TxLane::B(lane) => lane.clear(),
            TxLane::C(lane) => lane.clear(),
        }
    }

    /// A tick: the bits that are sent, 10 or 66, the first one most significant. `octets` are those
    /// of the tick, one or eight, the first one most significant.
    pub fn tick(&mut self, order: TxOrder, octets: u64) -> u128
        requires follows { MayFollow self.old order }
        requires small { IsSmall self.old octets }
        ensures bits { (p : ParamsValue) (lane : ℕ) (handed : List Handed)
            → HasSent self.old p lane handed
            → (kind_of p).sends p lane (handed ++ (record { order = order; octets = octets }) ∷ [])
            ≡ (kind_of p).sends p lane handed ++ bits (width p) result ∷ [] }
        ensures below { result < 2 ^ tx_width self.old }
        ensures sent { (p : ParamsValue) (lane : ℕ) (handed : List Handed)
            → HasSent self.old p lane handed
            → HasSent self.new p lane (handed ++ (record { order = order; octets = octets }) ∷ []) }
        ensures next { next_in self.new ≡ next_after (params_in self.old) order }
        ensures same { params_in self.new ≡ params_in self.old }
        ensures width { tx_width self.new ≡ tx_width self.old }
    {
        match self {
            TxLane::B(lane) => u128::from(lane.tick(order, octets as u8)),
            TxLane::C(lane) => lane.tick(order, octets),
        }
    }
}
