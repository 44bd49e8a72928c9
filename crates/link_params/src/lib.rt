//! The parameters of a link, the laws that they obey, and the numbers that follow from them.
//!
//! ```text
//! let shape = params.check()?;
//! let link = shape.with(&timing)?;
//! let octets = config_octets(&link, 0);
//! ```
#![tactic(auto)]

mod alarms;
mod cells;
mod check;
mod config;
mod fields;
mod ilas_state;
mod lane_config;
mod lane_report;
mod law;
mod link;
mod numbers;
mod orders;
mod place;
mod shape;
#[cfg(test)]
mod tests;
mod timing_check;

pub use alarms::{Alarm, Device};
pub use cells::{LaneCell, Mark};
pub use config::{BadFchk, Config};
pub use fields::{Mode, Params, Timing};
pub use ilas_state::{IlasCause, IlasState};
pub use lane_config::{config_octets, first_difference, octet_differs, read_config};
pub use lane_report::LaneReport;
pub use law::Law;
pub use link::Link;
pub use numbers::sizes;
pub use orders::{RxOrder, TxOrder};
pub use place::{place_after, place_in_frame};
pub use shape::Shape;
