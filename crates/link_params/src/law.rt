//! The number of a law.

/// The number of a law, from 1 to 17.
#[derive(Clone, Copy, Debug, PartialEq, Eq)]
pub struct Law(pub u8);
