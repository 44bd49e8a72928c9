//! Alignment characters in the place of data octets, and the octets back.
//!
//! ```text
//! let mut replace = Replace::new(&shape);
//! let c = replace.push(place, octet); // Char::Data(octet), or an alignment character
//! let restored = restore.push(place, reading); // restored.octet, restored.bad, restored.fault
//! ```
#![tactic(auto)]

mod laws;
mod places;
mod replace;
mod restore;
mod restored;
#[cfg(test)]
mod tests;

pub use laws::replacement_laws;
pub use places::is_alignment_of;
pub use replace::Replace;
pub use restore::Restore;
pub use restored::Restored;
