//! Multiblocks on 64b/66b lanes (JESD204C.1, "64b/66b link layer"): the sync word that the headers of 32
//! blocks carry, and the hunt for the place of multiblocks in a stream of bits.
//!
//! ```text
//! let word = sync_word(Mode::CCrc, check, 0, end); // bit 31 is sync bit 0, which is sent first
//! let read = read_sync(Mode::CCrc, word); // read.check is check, and read.pilot is true
//! let mut hunt = PlaceHunt::new(params.e);
//! let place = hunt.push(tick); // Some in the tick that completes the least place
//! ```
//!
//! The 66 bits of a tick are a `u128` whose bit 65 came first.
#![tactic(auto)]

mod place;
mod place_hunt;
mod sync_read;
mod sync_words;
#[cfg(test)]
mod tests;

pub use place::Place;
pub use place_hunt::{PlaceHunt, places};
pub use sync_read::{SyncRead, read_sync};
pub use sync_words::{reads_back, sync_word};
