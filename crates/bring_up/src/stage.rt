//! Where a receiver stands, and what it decides.

/// The stage of a link's receiver.
#[derive(Clone, Copy, Debug, PartialEq, Eq)]
pub enum Stage {
    /// The lanes look for where characters or blocks begin; SYNC~ is low.
    Hunt,
    /// The lanes are armed and wait for their starts.
    Wait,
    /// The link is released: each lane gives an entry in each tick.
    Run,
}

/// What a receiver decides at a release point.
#[derive(Clone, Copy, Debug, PartialEq, Eq)]
pub enum Decision {
    /// All stays as it is.
    Stay,
    /// The lanes are armed from the next tick on.
    Arm,
    /// The link is released in this tick.
    Release,
    /// A hunt begins with the next tick.
    Hunt,
}
