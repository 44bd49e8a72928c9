//! The lanes of a link: each one a transmitter lane, a line and a receiver lane of either kind.
#![tactic(auto)]

mod cell_end;
mod gate;
mod lane;
mod lane_pair;
mod laws;
mod meeting;
mod rx_lane;
mod segment;
mod step;
#[cfg(test)]
mod tests_segments;
mod tx_lane;

pub use cell_end::CellEnd;
pub use gate::{Gate, NoGate, NoSide, Side};
pub use lane::{Lane, open_line};
pub use lane_pair::LanePair;
pub use laws::segments_go_on;
pub use meeting::{ends_are_send, meet};
pub use segment::run_segment;
pub use step::{Step, steps_are_sync};
