//! What a receiver lane delivers in a tick.
ghost use Rattle.std.specs.Prelude.{◌≡◌};
ghost use Rattle.link_params.specs.Lanes.{worse};

/// What the checks say of delivered octets.
#[derive(Clone, Copy, Debug, PartialEq, Eq)]
pub enum Mark {
    /// Each received piece that they depend on passed its checks.
    Ok,
    /// One was corrected, and none is bad.
    Fixed,
    /// One is bad.
    Bad,
}

impl Mark {
    /// The worse of two marks: `Bad` is worse than `Fixed`, and `Fixed` worse than `Ok`.
    pub fn worse(self, other: Mark) -> Mark
        ensures { result ≡ worse self other }
    {
        match (self, other) {
            (Mark::Bad, _) | (_, Mark::Bad) => Mark::Bad,
            (Mark::Fixed, _) | (_, Mark::Fixed) => Mark::Fixed,
            (Mark::Ok, Mark::Ok) => Mark::Ok,
        }
    }
}

/// The octets that a lane delivers in a tick.
#[derive(Clone, Copy, Debug, PartialEq, Eq)]
pub struct LaneCell {
    /// One octet, or on a 64b/66b lane eight octets with the first most significant.
    pub value: u64,
    /// What the checks say of them.
    pub mark: Mark,
}
