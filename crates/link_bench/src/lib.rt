//! The jobs of the bench: what the program `jesd_bench` does with its words, its input and its
//! output.
//!
//! ```text
//! let mut input = StdSource::new(rt.stdin());
//! let mut out = StdSink::new(rt.stdout());
//! let mut kept = None;
//! let status = bench(&rt, rt.alloc(), &words, &mut input, &mut out, &NoGate, &mut kept);
//! ```
#![tactic(auto)]

mod asked;
mod digits;
mod generated;
mod lines;
mod link;
mod on_input;
#[cfg(test)]
mod tests;
#[cfg(test)]
mod tests_blocks;
#[cfg(test)]
mod tests_generated;
#[cfg(test)]
mod tests_lanes;
#[cfg(test)]
mod tests_run;
#[cfg(test)]
mod tests_workers;
mod top;
mod written;

pub use link::run_link;
pub use top::bench;
