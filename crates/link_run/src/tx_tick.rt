//! What the transmitter does in a tick.
use link_params::TxOrder;

/// What the transmitter does in a tick.
#[derive(Clone, Copy, Debug, PartialEq, Eq)]
pub struct TxTick {
    /// The phase of a SYSREF edge that comes off a boundary.
    pub off: Option<u32>,
    /// What each lane sends.
    pub order: TxOrder,
    /// The place in the multiframe or extended multiblock, where the order is data.
    pub place: Option<u32>,
}
