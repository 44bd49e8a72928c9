//! The cyclic redundancy check of multiblocks on 64b/66b lanes, CRC-12 (JESD204C.1, "64b/66b link layer").
//!
//! ```text
//! let mut check = Crc12::new();
//! check.push64(payload);
//! let sent = check.value();
//! ```
#![tactic(auto)]

mod check;
mod table;
#[cfg(test)]
mod tests;

pub use check::Crc12;
