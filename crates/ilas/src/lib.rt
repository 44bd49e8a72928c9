//! The initial lane alignment sequence of a lane: what is sent, and the check of what is received.
//!
//! ```text
//! let c = ilas_char(&link, 0, 0); // Char::Control(K28_0)
//! let mut check = IlasCheck::new(&link, 0);
//! let state = check.push(reading); // IlasState::Going
//! ```
#![tactic(auto)]

mod check;
mod sequence;
#[cfg(test)]
mod tests;

pub use check::{IlasCheck, is_allowed};
pub use sequence::{ilas, ilas_char};
