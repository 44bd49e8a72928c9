//! Characters, disparities, and what ten bits read as.

/// The running disparity of a lane (IEEE 802.3 clause 36.2.4, "Running disparity rules").
#[derive(Clone, Copy, PartialEq, Eq, Debug)]
pub enum Rd {
    /// Negative, as after a reset of the transmitter.
    Minus,
    /// Positive.
    Plus,
}

/// A character of the code, by its octet HGFEDCBA.
#[derive(Clone, Copy, PartialEq, Eq, Debug)]
pub enum Char {
    /// D x.y, where x is the low five bits of the octet and y the high three.
    Data(u8),
    /// K x.y. Twelve octets have a spelling (IEEE 802.3 table 36-2).
    Control(u8),
}

/// What ten bits are to a receiver at its present disparity.
#[derive(Clone, Copy, PartialEq, Eq, Debug)]
pub enum Reading {
    /// The character's spelling at the present disparity.
    Char(Char),
    /// The character's spelling at the other disparity, and no character's at the present one.
    Disparity(Char),
    /// No character's spelling at either disparity.
    Invalid,
}
