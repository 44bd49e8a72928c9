//! What the receiver says at the beginning of a tick.
use link_params::RxOrder;

/// What the receiver says at the beginning of a tick.
#[derive(Clone, Copy, Debug, PartialEq, Eq)]
pub struct RxTick {
    /// The phase of a SYSREF edge that comes off a boundary.
    pub off: Option<u32>,
    /// What each lane is told.
    pub told: RxOrder,
    /// The tick is a release point.
    pub decides: bool,
}
