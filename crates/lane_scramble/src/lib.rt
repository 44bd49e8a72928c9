//! The self-synchronous scramblers of JESD204: over octets on 8b/10b lanes (JESD204B.01, "Scrambling")
//! and over 64-bit payloads on 64b/66b lanes (JESD204C.1, "64b/66b link layer").
//!
//! ```text
//! let mut sender = Scr15::new();
//! let mut receiver = Scr15::new();
//! let octet = receiver.descramble(sender.scramble(0x5a)); // 0x5a again
//! ```
#![tactic(auto)]

mod scr15;
mod scr58;
mod scramble_laws;
#[cfg(test)]
mod tests;

pub use scr15::Scr15;
pub use scr58::Scr58;
pub use scramble_laws::scrambling;
