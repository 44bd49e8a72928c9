//! The SYSREF edges of a tick that come off a boundary.

/// The phase of a SYSREF edge that comes in a tick off a boundary, at each device
/// (JESD204B.01 clause 6, "Deterministic latency").
#[derive(Clone, Copy, Debug, PartialEq, Eq)]
pub struct Edges {
    /// At the transmitter.
    pub tx: Option<u32>,
    /// At the receiver.
    pub rx: Option<u32>,
}
