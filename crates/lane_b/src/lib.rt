//! Both ends of an 8b/10b lane (JESD204B.01 clause 5.3): one character a tick.
//!
//! ```text
//! let mut sender = TxLaneB::new(&link, 0);
//! let word = sender.tick(TxOrder::Comma, 0); // ten bits, bit 9 sent first
//! let mut receiver = RxLaneB::open(alloc, &link, 0)?;
//! sender.run(place, &octets, &mut words); // data that goes on, as so many ticks
//! receiver.take(&order, word);
//! let count = receiver.run_to_change(&order, &words);
//! let report = receiver.report();
//! ```
#![tactic(auto)]

mod alignment;
mod chars;
mod laws;
mod loss;
mod octets;
mod receiver;
mod sender;
mod started;
#[cfg(test)]
mod tests_receiver;
#[cfg(test)]
mod tests_sender;
#[cfg(test)]
mod tests_started;

pub use laws::{
    entries_by_ticks, lasting_reports, one_chain, one_lock, replaced_and_restored, ten_bits_a_tick,
};
pub use receiver::RxLaneB;
pub use sender::TxLaneB;
