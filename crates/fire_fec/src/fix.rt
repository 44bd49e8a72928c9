//! What a correction answers.

/// What was found in a received word of 2,048 payload bits and 26 check bits.
#[derive(Clone, Copy, Debug, PartialEq, Eq)]
pub enum Fix {
    /// The word has the remainder 0.
    Whole,
    /// One burst explains the word. It begins at bit `start` of the word, counted from 0. The
    /// nine bits of `mask` say which bits were wrong: bit 8 belongs to `start` and is 1, and
    /// those past the end are 0.
    Fixed { start: u32, mask: u16 },
    /// No burst of at most nine bits explains the word.
    Uncorrectable,
}
