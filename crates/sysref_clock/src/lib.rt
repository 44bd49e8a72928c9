//! The SYSREF capture of a device and the phase of its local clock (JESD204B.01 clause 6, "Deterministic latency").
//!
//! ```text
//! let tick = capture_tick(nominal, skew, jitter); // the tick in which a SYSREF edge is captured
//! let mut clock = LocalClock::new(period);
//! let answer = clock.tick(edge); // answer.phase is 0 in the tick of the first edge
//! ```
#![tactic(auto)]

mod capture;
mod clock_tick;
mod laws;
mod local_clock;
#[cfg(test)]
mod tests;

pub use capture::capture_tick;
pub use clock_tick::ClockTick;
pub use laws::clock_laws;
pub use local_clock::LocalClock;
