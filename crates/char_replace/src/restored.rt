//! What a reading gives.

/// What the reading of one place gives.
#[derive(Clone, Copy, Debug, PartialEq, Eq)]
pub struct Restored {
    /// The octet, 0 where the reading is invalid.
    pub octet: u8,
    /// The octet cannot be relied on: the character is bad, or it repeats an octet that is bad.
    pub bad: bool,
    /// The character is bad.
    pub fault: bool,
}
