//! What the events of a tick do.

/// What the events of a tick do to the devices, and which event is the first one of later ticks.
#[derive(Clone, Copy, Debug, PartialEq, Eq)]
pub struct Happened {
    /// The transmitter is reset.
    pub tx_reset: bool,
    /// The receiver is reset.
    pub rx_reset: bool,
    /// The place of the first event of a later tick.
    pub next: usize,
}
