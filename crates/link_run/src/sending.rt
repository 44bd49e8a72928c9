//! What the transmitter sends, tick by tick.
ghost use Rattle.std.specs.Prelude.{◌≡◌, ◌≤◌, ◌<◌, [], List, None, IfSome};
ghost use Rattle.link_params.specs.declared.fields.Params.{Params as ParamsValue};
ghost use Rattle.link_params.specs.Numbers.{period as period_of};
ghost use Rattle.link_model.specs.Orders.{Observed};
ghost use Rattle.link_model.specs.Sends.{data_place};
ghost use Rattle.link_run.specs.kept.Sendings.{BlocksGoOn, GoesOnTo, HasObserved, next_of};

use crate::alignment::Alignment;
use link_params::{Mode, TxOrder, place_after};

/// Where a transmitter stands.
#[derive(Clone, Copy, Debug, PartialEq, Eq)]
pub enum Sending {
    /// 8b/10b lanes.
    Octets(Alignment),
    /// 64b/66b lanes (JESD204C.1, 64b/66b link layer): the place of the last block in its extended
    /// multiblock. Before the first SYSREF edge since the reset there is none, and zero bits are
    /// sent.
    Blocks(Option<u32>),
}

impl Sending {
    /// A transmitter of this mode that was just reset.
    pub fn new(mode: Mode) -> Sending
        ensures begins { (p : ParamsValue) → p.mode ≡ mode → HasObserved result p [] }
        ensures next { (p : ParamsValue) → next_of p result ≡ None }
    {
        match mode {
            Mode::B => Sending::Octets(Alignment::new()),
            Mode::CCrc | Mode::CFec => Sending::Blocks(None),
        }
    }

    /// The order of the next tick, at this phase of the transmitter's clock, where it sees SYNC~
    /// low or high.
    pub fn tick(&mut self, period: u32, phase: Option<u32>, low: bool) -> TxOrder
        requires short { 1 ≤ period }
        requires long { period ≤ 1024 }
        ensures goes_on { (p : ParamsValue) (observed : List Observed) → period_of p ≡ period
            → HasObserved self.old p observed
            → GoesOnTo self.old self.new p observed (record { phase = phase; low = low }) result }
        ensures place { IfSome (data_place result) (λ x. x < period) }
    {
        match self {
            Sending::Octets(alignment) => alignment.tick(period, phase, low),
            Sending::Blocks(last) => {
                let (place, order) = next_block(*last, period, phase);
                *last = place;
                order
            }
        }
    }
}

// The place and the order of a 64b/66b lane's next tick.
fn next_block(last: Option<u32>, period: u32, phase: Option<u32>) -> (Option<u32>, TxOrder)
    requires short { 1 ≤ period }
    requires long { period ≤ 1024 }
    ensures goes_on { (p : ParamsValue) (observed : List Observed) → period_of p ≡ period
        → BlocksGoOn last result.0 p observed phase result.1 }
    ensures place { IfSome (data_place result.1) (λ x. x < period) }
{
    match last {
        Some(x) => {
            let place = place_after(x, period);
            let order = TxOrder::Block {
                place,
                first: false,
            };
            (Some(place), order)
        }
        None if phase.is_some() => {
            let order = TxOrder::Block {
                place: 0,
                first: true,
            };
            (Some(0), order)
        }
        None => (None, TxOrder::Silent),
    }
}
