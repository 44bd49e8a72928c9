//! The decisions of a link's receiver (JESD204B.01 clauses 5.3.3, link operation, and 6, deterministic latency): when its lanes are
//! armed, when the link is released, and which alarms are raised.
//!
//! ```text
//! let mut control = Control::new(&link);
//! let mut alarms = AlarmRow::new();
//! let decision = control.decide(&reports, &mut alarms); // at each release point
//! ```
#![tactic(auto)]

mod alarm_row;
mod class;
mod control;
mod judge;
mod laws;
mod stage;
#[cfg(test)]
mod tests;

pub use alarm_row::AlarmRow;
pub use control::Control;
pub use laws::decision_laws;
pub use stage::{Decision, Stage};
