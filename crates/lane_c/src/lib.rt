//! Both ends of a 64b/66b lane (JESD204C.1, 64b/66b link layer), with CRC-12 or FEC: one block of
//! 66 bits a tick.
//!
//! ```text
//! let mut sender = TxLaneC::new(&link);
//! let order = TxOrder::Block { place: 0, first: true };
//! let block = sender.tick(order, octets); // 66 bits, bit 65 sent first
//! let mut receiver = RxLaneC::open(alloc, &link)?;
//! receiver.take(&order_of_the_tick, block);
//! let report = receiver.report();
//! ```
#![tactic(auto)]

mod loss;
mod pipeline;
mod receiver;
mod sender;
#[cfg(test)]
mod tests_receiver;
#[cfg(test)]
mod tests_sender;

pub use receiver::RxLaneC;
pub use sender::TxLaneC;
