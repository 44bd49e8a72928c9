//! Alarms of a link.

/// One end of a link.
#[derive(Clone, Copy, Debug, PartialEq, Eq)]
pub enum Device {
    /// The transmitter.
    Tx,
    /// The receiver.
    Rx,
}

/// What a receiver tells of a link that is not as it should be (this project's own names). Lanes are counted from 0.
#[derive(Clone, Copy, Debug, PartialEq, Eq)]
pub enum Alarm {
    /// A lane started at an offset outside its window, in ticks.
    LaneWindow { lane: u32, offset: u32 },
    /// A lane did not start by a decision at which some lane had.
    LaneMissing { lane: u32 },
    /// Too many faults came on a lane.
    LaneLost { lane: u32 },
    /// A lane found no lock for sixteen decisions.
    NoLock { lane: u32 },
    /// A place of the alignment sequence breaks a rule.
    IlasFault { lane: u32, place: u32 },
    /// A configuration octet, other than the one with the lane's number, is not the lane's.
    ConfigMismatch { lane: u32, octet: u32 },
    /// The configuration octets of a lane name another lane: the five low bits of octet 2.
    LaneId { lane: u32, lid: u32 },
    /// A SYSREF edge came at this phase of a device's clock, in ticks.
    SysrefPhase { device: Device, off: u32 },
    /// No lane started for eight decisions.
    StartTimeout,
}
