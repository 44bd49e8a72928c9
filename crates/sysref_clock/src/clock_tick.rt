//! What a clock answers in a tick.

/// The phase of a local clock in a tick, and what SYSREF says of it (JESD204B.01 clause 6, "Deterministic latency").
#[derive(Clone, Copy, Debug, PartialEq, Eq)]
pub struct ClockTick {
    /// The phase in this tick, from 0 to below the period; `None` before the first edge.
    pub phase: Option<u32>,
    /// The phase of an edge that comes in this tick, where it is not 0.
    pub off: Option<u32>,
}
