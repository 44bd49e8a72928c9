//! The sizes of a received word and of a burst.

// The bits of a check.
pub(crate) const CHECK_BITS: u32 = 26;

// The bits of a received word: 32 blocks of payload, and the check.
pub(crate) const WORD_BITS: u32 = 32 * 64 + CHECK_BITS;

// The bits of a burst's mask.
pub(crate) const MASK_BITS: u32 = 9;

// The last place in the word at which all bits of a mask fit.
pub(crate) const LAST_START: u32 = WORD_BITS - MASK_BITS;
