//! What a receiver lane tells the receiver's control.
ghost use Rattle.std.specs.Prelude.{◌≡◌, IsTrue, ◌↔◌};

use crate::ilas_state::IlasState;

/// What a receiver lane reports after a tick.
#[derive(Clone, Copy, Debug, PartialEq, Eq)]
pub struct LaneReport {
    /// The lane knows where characters or blocks begin.
    pub locked: bool,
    /// The offset of the lane's start, in ticks; `None` before it.
    pub started: Option<u32>,
    /// Too many faults came since the start.
    pub lost: bool,
    /// The check of the alignment sequence; `Idle` on 64b/66b lanes.
    pub ilas: IlasState,
}

impl LaneReport {
    /// Whether the other report tells the same.
    pub fn is_same(&self, other: &LaneReport) -> bool
        ensures { IsTrue result ↔ (self.now ≡ other.now) }
    {
        if self.locked != other.locked || self.lost != other.lost {
            return false;
        }
        is_same_start(self.started, other.started) && self.ilas == other.ilas
    }
}

fn is_same_start(one: Option<u32>, other: Option<u32>) -> bool
    ensures { IsTrue result ↔ (one ≡ other) }
{
    match (one, other) {
        (None, None) => true,
        (Some(a), Some(b)) => a == b,
        _ => false,
    }
}
