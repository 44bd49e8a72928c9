//! What a header carries.

/// The sync bit that a block's header carries: header 01 carries a one, and 10 a zero
/// (JESD204C.1, "64b/66b link layer", block format).
#[derive(Clone, Copy, Debug, PartialEq, Eq)]
pub enum SyncBit {
    /// Header 10.
    Zero,
    /// Header 01.
    One,
    /// Header 00 or 11, which no transmitter sends.
    Bad,
}
