//! The elastic buffer of a receiver lane (JESD204B.01 clause 6, "Deterministic latency"): lanes that arrive early wait in it for the
//! release.
//!
//! ```text
//! let mut buffer = ElasticBuffer::open(alloc, 23)?;
//! buffer.push(cell);
//! let first = buffer.pop();
//! ```
#![tactic(auto)]

mod buffer;
#[cfg(test)]
mod tests;

pub use buffer::ElasticBuffer;
