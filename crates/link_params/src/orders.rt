//! What the ends of a lane are told in a tick.

/// What a transmitter lane sends in a tick.
#[derive(Clone, Copy, Debug, PartialEq, Eq)]
pub enum TxOrder {
    /// /K/, code group synchronization (JESD204B.01 clause 5.3.3.1).
    Comma,
    /// The character of this place of the alignment sequence, from 0 to below four multiframes (JESD204B.01 clause 5.3.3.5).
    Ilas(u32),
    /// Data on an 8b/10b lane: the place in the multiframe, and whether it is the first octet after the alignment sequence.
    Data { place: u32, first: bool },
    /// Zero bits on a 64b/66b lane, before the first SYSREF edge.
    Silent,
    /// A block on a 64b/66b lane: the place in the extended multiblock, and whether it is the first block after a reset.
    Block { place: u32, first: bool },
}

/// What a receiver lane is told with the bits of a tick.
#[derive(Clone, Copy, Debug, PartialEq, Eq)]
pub struct RxOrder {
    /// A hunt begins with the first bit of this tick.
    pub hunt: bool,
    /// The lane is armed: it starts with the first character that is not /K/, or block that begins an extended multiblock.
    pub armed: bool,
    /// The offset that a start in this tick would have, in ticks.
    pub offset: u32,
}
