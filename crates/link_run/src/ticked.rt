//! What is seen of a tick.
use bring_up::Decision;

/// What is seen of a tick, beside the alarms of its decision and the frames that leave.
#[derive(Clone, Copy, Debug, PartialEq, Eq)]
pub struct Ticked {
    /// The receiver was reset.
    pub rx_reset: bool,
    /// The phase of a SYSREF edge that came off a boundary at the transmitter, and at the receiver.
    pub tx_off: Option<u32>,
    pub rx_off: Option<u32>,
    /// The place in the multiframe or extended multiblock of the data that was sent, if any was.
    pub place: Option<u32>,
    /// What the receiver decided.
    pub decision: Decision,
}
