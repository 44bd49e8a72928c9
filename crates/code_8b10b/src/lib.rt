//! The 8b/10b code: spellings of characters, readings of any ten bits, and the hunt for commas.
//!
//! ```text
//! let (word, next) = encode(Rd::Minus, Char::Control(K28_5))?; // 0x0FA, Rd::Plus
//! let (reading, next) = decode(Rd::Minus, 0x0FA); // Reading::Char(Char::Control(K28_5)), Rd::Plus
//! let lock = hunt.push(0x0FA); // Some(Lock { rest: 0, rd: Rd::Plus }) at the fourth comma
//! ```
#![tactic(auto)]

mod character;
mod code;
mod control;
mod hunt;
mod laws;
mod tables;
#[cfg(test)]
mod tests;

pub use character::{Char, Rd, Reading};
pub use code::{decode, encode};
pub use control::{K28_0, K28_3, K28_4, K28_5, K28_7};
pub use hunt::{Hunt, Lock};
pub use laws::{code_laws, comma_places};
