//! Jobs, and the kinds of records.

/// What is to be done with a scenario.
#[derive(Clone, Copy, Debug, PartialEq, Eq)]
pub enum Job {
    /// Lay out the words of frames as the octets of lanes.
    Map,
    /// Take the words of frames out of the octets of lanes.
    Unmap,
    /// Run the link.
    Run,
}

/// The kind of a record: its field 0.
#[derive(Clone, Copy, Debug, PartialEq, Eq)]
pub enum Kind {
    Jesd,
    Link,
    Timing,
    Run,
    Frame,
    Octets,
    Ramp,
    Delay,
    Reset,
    Dead,
    Jitter,
    Flip,
    Wire,
    Route,
    Polarity,
}
