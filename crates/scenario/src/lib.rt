//! Scenarios: read from the records of an input for the jobs `map`, `unmap` and `run`, or made from
//! a number (`gen_scenario`); `replace_frames` puts other words in.
//!
//! ```text
//! match read_scenario(alloc, Job::Map, b"jesd,1\nlink,b,1,1,1,1,8,8,0,0,0,17,0\nframe,a5\n") {
//!     Ok(scenario) => map(&scenario.shape, &scenario.input),
//!     Err(ScenarioFault::Bad { row, cause, at }) => refuse(row, cause, at),
//!     Err(ScenarioFault::NoMemory) => give_up(),
//! }
//! ```
//!
//! An input is CSV with no header row. The first record is `jesd,1` or `jesd,2`, the second is
//! `link`. Then come records `frame` (for `map`) or `octets` (for `unmap`); for `run` one record
//! `timing`, one record `run`, and the others in any order; version 2 adds `wire`, `route` and
//! `polarity`. Spaces and tabs round a field are no part of it. The first record that is wrong is refused with its number, the cause and the place
//! in it.
#![tactic(auto)]

mod body;
mod cause;
mod digits;
mod drawn_link;
mod drawn_lists;
mod drawn_parts;
mod draws;
mod event;
mod fault;
mod finish;
mod flip;
mod frame;
mod generated;
mod input;
mod jitter;
mod kind;
mod line_text;
mod link;
mod plan;
mod ramp;
mod read;
mod reading;
mod reading_laws;
mod replace;
mod report_row;
mod row;
mod run;
mod scenario_type;
mod source;
mod stage;
mod steps;
#[cfg(test)]
mod tests;
#[cfg(test)]
mod tests_generated;
#[cfg(test)]
mod tests_text;
mod text;
mod timing;
mod wiring;

pub use digits::write_digits;
pub use fault::ScenarioFault;
pub use generated::gen_scenario;
pub use input::Input;
pub use kind::Job;
pub use line_text::LineText;
pub use plan::{Event, Flip, Jitter, Print, What};
pub use read::read_scenario;
pub use reading_laws::{generated_plans, readings};
pub use replace::replace_frames;
pub use report_row::{Row, Totals};
pub use scenario_type::Scenario;
pub use source::{source_frame, source_frames};
