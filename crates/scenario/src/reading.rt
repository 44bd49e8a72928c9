//! What the records so far say.
ghost use Rattle.std.specs.Prelude.{◌≡◌};
ghost use Rattle.scenario.specs.Reads.{flipped};

use crate::plan::{Event, Flip, Jitter};
use crate::stage::{Polarity, Stage};

/// What the records so far say.
#[derive(Drop)]
pub struct Reading {
    pub version: u32,
    pub stage: Stage,
    pub words: Vec<u32>,
    pub octets: Vec<u8>,
    pub events: Vec<Event>,
    pub jitters: Vec<Jitter>,
    pub flips: Vec<Flip>,
    /// The lanes of the record `wire`, and of `route`; none before it.
    pub wire: Vec<u32>,
    pub route: Vec<u32>,
    pub polarities: Vec<Polarity>,
    /// The counts of the flips together.
    pub flipped_bits: u32,
    pub ghost counted: { flipped flips.items ≡ flipped_bits },
}
