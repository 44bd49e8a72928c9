//! A segment of ticks with what came of its last one.

use crate::segment::Segment;
use bring_up::{AlarmRow, Decision};

/// A segment, what the receiver decided in its last tick, with which alarms, and whether the link
/// runs after it.
#[derive(Drop)]
pub struct Ended {
    pub segment: Segment,
    pub decision: Decision,
    pub alarms: AlarmRow,
    pub released: bool,
}
