//! What a transmitter of 8b/10b lanes sends, tick by tick.
ghost use Rattle.std.specs.Prelude.{◌≡◌, ◌≤◌, ◌<◌, ◌++◌, ◌∷◌, [], false, List, None, IfSome};
ghost use Rattle.link_params.specs.declared.fields.Params.{Params as ParamsValue};
ghost use Rattle.link_params.specs.declared.fields.Mode.TheVariants.{B};
ghost use Rattle.link_params.specs.Numbers.{period as period_of};
ghost use Rattle.lane_b.specs.kept.Senders.{Follows, place_after_order};
ghost use Rattle.link_model.specs.Orders.{Observed, tx_order};
ghost use Rattle.link_model.specs.Sends.{data_place};
ghost use Rattle.link_run.specs.kept.Alignments.{GoesOnTo, HasObserved, next_of};

use link_params::{TxOrder, place_after};

/// Where a transmitter of 8b/10b lanes stands (JESD204B.01 clauses 5.3.3.1, code group
/// synchronization, and 5.3.3.5, initial lane alignment).
#[derive(Clone, Copy, Debug, PartialEq, Eq)]
pub enum Alignment {
    /// It has not seen SYNC~ low since its reset, and sends /K/.
    Idle,
    /// It has seen SYNC~ low, and sends /K/ until the next boundary at which it is high.
    Synchronizing,
    /// It sent this place of the alignment sequence.
    Aligning(u32),
    /// It sent data at this place of a multiframe.
    Streaming(u32),
}

impl Alignment {
    /// A transmitter that was just reset.
    pub fn new() -> Alignment
        ensures begins { (p : ParamsValue) → HasObserved result p [] }
        ensures next { (p : ParamsValue) → next_of p result ≡ None }
    {
        Alignment::Idle
    }

    /// The order of the next tick, at this phase of the transmitter's clock, where it sees SYNC~
    /// low or high.
    pub fn tick(&mut self, period: u32, phase: Option<u32>, low: bool) -> TxOrder
        requires short { 1 ≤ period }
        requires long { period ≤ 1024 }
        ensures order { (p : ParamsValue) (observed : List Observed) → p.mode ≡ B
            → period_of p ≡ period → HasObserved self.old p observed
            → result ≡ tx_order p (observed ++ (record { phase = phase; low = low }) ∷ []) }
        ensures goes_on { (p : ParamsValue) (observed : List Observed) → p.mode ≡ B
            → period_of p ≡ period → HasObserved self.old p observed
            → HasObserved self.new p (observed ++ (record { phase = phase; low = low }) ∷ []) }
        ensures follows { (p : ParamsValue) (observed : List Observed) → p.mode ≡ B
            → period_of p ≡ period → HasObserved self.old p observed
            → Follows p (next_of p self.old) result }
        ensures next { (p : ParamsValue) (observed : List Observed) → p.mode ≡ B
            → period_of p ≡ period → HasObserved self.old p observed
            → next_of p self.new ≡ place_after_order p result }
        ensures place { IfSome (data_place result) (λ x. x < period) }
    {
        if low {
            *self = Alignment::Synchronizing;
            return TxOrder::Comma;
        }
        let (alignment, order) = self.next(period, phase);
        *self = alignment;
        order
    }

    // What comes next where SYNC~ is seen high.
    fn next(self, period: u32, phase: Option<u32>) -> (Alignment, TxOrder)
        requires short { 1 ≤ period }
        requires long { period ≤ 1024 }
        ensures goes_on { (p : ParamsValue) (observed : List Observed) → p.mode ≡ B
            → period_of p ≡ period → HasObserved self p observed
            → GoesOnTo self result.0 p observed (record { phase = phase; low = false }) result.1 }
        ensures place { IfSome (data_place result.1) (λ x. x < period) }
    {
        match self {
            Alignment::Idle => (Alignment::Idle, TxOrder::Comma),
            Alignment::Synchronizing if phase == Some(0) => (
                Alignment::Aligning(0),
                TxOrder::Ilas(0),
            ),
            Alignment::Synchronizing => (Alignment::Synchronizing, TxOrder::Comma),
            Alignment::Aligning(x) if x < 4 * period - 1 => {
                (Alignment::Aligning(x + 1), TxOrder::Ilas(x + 1))
            }
            Alignment::Aligning(_) => (
                Alignment::Streaming(0),
                TxOrder::Data {
                    place: 0,
                    first: true,
                },
            ),
            Alignment::Streaming(x) => {
                let place = place_after(x, period);
                (
                    Alignment::Streaming(place),
                    TxOrder::Data {
                        place,
                        first: false,
                    },
                )
            }
        }
    }
}
