//! Where bytes come from and go to, and polynomials over bits.
//!
//! ```text
//! let bytes = read_all(alloc, &mut input, 4_194_304)?;
//! write_all(&mut out, &bytes)?;
//! let remainder = Poly::rem(&[true, false, true], 0b11);
//! ```
#![tactic(auto)]

mod bit_laws;
mod mem_sink;
mod mem_source;
mod poly;
mod sink;
mod source;
mod status;
mod std_streams;
#[cfg(test)]
mod tests;

pub use bit_laws::{bits_and_numbers, division};
pub use mem_sink::MemSink;
pub use mem_source::MemSource;
pub use poly::Poly;
pub use sink::{Sink, WriteFault, write_all};
pub use source::{Failed, ReadAll, Source, read_all};
pub use status::{NoMemory, Status};
pub use std_streams::{StdSink, StdSource};
