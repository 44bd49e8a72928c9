//! Samples to the octets of lanes, and back: the transport layer.
//!
//! ```text
//! let layout = Layout::new(&shape);
//! layout.map(&words, &mut octets);
//! layout.unmap(&octets, &mut words);
//! ```
#![tactic(auto)]

mod cursor;
mod grid;
mod laws;
mod layout;
#[cfg(test)]
mod tests;
mod whole;

pub use laws::layout_laws;
pub use layout::Layout;
