//! The line of a lane between transmitter and receiver (this project's own model): a delay, inverted bits,
//! and ticks in which it is dead.
//!
//! ```text
//! let mut line = Line::open(alloc, 10, 100, 3, flips)?;
//! let received = line.step(word); // the bits of three bit times ago
//! line.run(&mut words); // as so many steps
//! line.set_delay(13);
//! ```
#![tactic(auto)]

mod line;
#[cfg(test)]
mod tests;

pub use line::Line;
