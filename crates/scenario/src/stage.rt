//! The place in the order of records.
use crate::kind::Job;
use crate::plan::Print;
use link_params::{Link, Shape};

/// A ramp of words.
#[derive(Clone, Copy)]
pub struct Ramp {
    pub start: u32,
    pub step: u32,
}

/// Whether all bits of a lane are inverted.
#[derive(Clone, Copy)]
pub struct Polarity {
    pub lane: u32,
    /// The wires are exchanged and the receiver does not undo it, or the other way round.
    pub inverted: bool,
}

/// What the records up to `run` fix, and the ramp once its record came.
#[derive(Clone, Copy)]
pub struct Setup {
    pub link: Link,
    pub ticks: u32,
    pub print: Print,
    pub ramp: Option<Ramp>,
}

/// The place in the order of records, with what is fixed there.
#[derive(Clone, Copy)]
pub enum Stage {
    /// No record was read.
    Version,
    /// The version was read: `link` is next.
    Link(Job),
    /// `map`: any number of records `frame`.
    Frames(Shape),
    /// `unmap`: any number of records `octets`.
    Octets(Shape),
    /// `run`: the record `timing` is next.
    Timing(Shape),
    /// `run`: the record `run` is next.
    Run(Link),
    /// `run`: any number of the other records.
    Body(Setup),
}
