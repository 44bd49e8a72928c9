//! The place of multiblocks.

/// Where a hunt found multiblocks (JESD204C.1, "64b/66b link layer", block and multiblock
/// synchronization).
#[derive(Clone, Copy, Debug, PartialEq, Eq)]
pub struct Place {
    /// How many bits of the last tick come after the pattern, 0 to 65: each block ends so many bits
    /// before the end of a tick.
    pub rest: u8,
    /// The place in its extended multiblock of the block that follows, counted in blocks from 0. It is
    /// a multiple of 32 below 32 * E, as the block begins a multiblock.
    pub next: u32,
}
