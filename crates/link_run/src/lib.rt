//! The run of a scenario: both ends of a link, with 8b/10b or 64b/66b lanes, the lines
//! between them, and the report.
//!
//! ```text
//! let mut bench = Bench::open(alloc, scenario, workers)?;
//! let status = bench.run(&rt, &mut out, &NoGate, false);
//! ```
#![tactic(auto)]

mod alignment;
mod bench;
mod collector;
mod deframer;
mod device_clock;
mod edges;
mod ended;
mod events;
mod feed;
mod flips;
mod frame_list;
mod frame_octets;
mod happened;
mod lanes;
mod link_state;
mod planner;
mod receiver;
mod report;
mod reporting;
mod rows;
mod runs;
mod rx_tick;
mod segment;
mod sending;
mod short_rows;
mod sync_line;
#[cfg(test)]
mod tests_clock;
#[cfg(test)]
mod tests_parts;
#[cfg(test)]
mod tests_rows;
#[cfg(test)]
mod tests_runs;
mod text_rows;
mod ticked;
mod transmitter;
mod tx_tick;
mod waiting;
mod whole_frames;

pub use bench::{Bench, Played};
pub use frame_list::FrameList;
pub use rows::Rows;
