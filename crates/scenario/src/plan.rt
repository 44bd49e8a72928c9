//! What a run is made of.
use link_params::Device;

/// Which frames of a run are printed.
#[derive(Clone, Copy, Debug, PartialEq, Eq)]
pub enum Print {
    /// None.
    None,
    /// Those that are delivered.
    Frames,
    /// Those that enter and those that are delivered.
    All,
}

/// What happens to a device or a lane.
#[derive(Clone, Copy, Debug, PartialEq, Eq)]
pub enum What {
    /// The device is reset.
    Reset(Device),
    /// From here on the lane's line delays by so many bits.
    Delay { lane: u32, bits: u32 },
    /// From here on the lane's line is dead, or alive again.
    Dead { lane: u32, on: bool },
}

/// What happens in a tick, before it is sent in it.
#[derive(Clone, Copy, Debug, PartialEq, Eq)]
pub struct Event {
    /// The tick, from 0.
    pub tick: u32,
    /// What happens.
    pub what: What,
}

/// How much later a SYSREF edge comes at a device, or earlier.
#[derive(Clone, Copy, Debug, PartialEq, Eq)]
pub struct Jitter {
    /// The device.
    pub device: Device,
    /// The number of the edge, from 0.
    pub edge: u32,
    /// How much later, in sixteenths of a tick, from -32 to 32.
    pub sixteenths: i32,
}

/// Received bits of a lane that are inverted.
#[derive(Clone, Copy, Debug, PartialEq, Eq)]
pub struct Flip {
    /// The lane.
    pub lane: u32,
    /// The number of the first one, from 0 at the run's beginning.
    pub first: u64,
    /// How many there are.
    pub count: u32,
}
