//! Parity and correction of the shortened Fire code of a 64b/66b multiblock: 2,048 payload bits
//! in 32 blocks, and 26 check bits. One burst of at most nine wrong bits is found and corrected.
//!
//! ```text
//! let check = parity(&payload);
//! let fix = correct_uncounted(&mut received, check);
//! assert_eq!(fix, Fix::Whole);
//! ```
//!
//! `correct` also counts its steps: each block that `Trap` takes in, and each of its shifts.
#![tactic(auto)]

mod burst;
mod correction;
mod fix;
mod flip;
mod laws;
mod remainder;
mod steps;
mod tables;
#[cfg(test)]
mod tests;
mod trap;
mod word;

pub use correction::{correct, correct_uncounted};
pub use fix::Fix;
pub use laws::{bursts, corrections, shifts};
pub use remainder::parity;
pub use steps::Steps;
pub use trap::Trap;
