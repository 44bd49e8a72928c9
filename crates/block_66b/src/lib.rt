//! The blocks of 66 bits on 64b/66b lanes (JESD204C.1, "64b/66b link layer"): two bits of header and 64
//! of payload, and the blocks in a stream of bits that comes 66 at a time.
//!
//! ```text
//! let mut window = BitWindow::new(3);
//! let block = window.push(tick); // the block that ends 3 bits before the end of this tick
//! let (sync, payload) = unpack(block);
//! ```
//!
//! A block, and the 66 bits of a tick, are a `u128` whose bit 65 came first.
#![tactic(auto)]

mod bit_window;
mod block;
mod sync_bit;
#[cfg(test)]
mod tests;

pub use bit_window::BitWindow;
pub use block::{pack, unpack};
pub use sync_bit::SyncBit;
