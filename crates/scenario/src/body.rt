//! The records after `run`.
ghost use Rattle.std.specs.Prelude.{◌≡◌, ◌<◌, ◌^◌, ◌++◌, ◌∷◌, [], None, Some, OnErr, length};
ghost use Rattle.scenario.specs.Check.{KeptOr};
ghost use Rattle.scenario.specs.declared.kind.Kind.TheVariants as kind;
ghost use Rattle.scenario.specs.Reads.{texts_of, of_kind, events_so_far};
ghost use Rattle.scenario.specs.Answer.{seen_of, StepsTo};

use crate::event::{read_dead, read_delay, read_reset};
use crate::fault::RecordFault;
use crate::flip::read_flip;
use crate::jitter::read_jitter;
use crate::ramp::read_ramp;
use crate::reading::Reading;
use crate::stage::{Ramp, Setup, Stage};
use crate::steps::misplaced;
use crate::wiring::{read_lanes, read_polarity};
use csv::ByteRecord;

/// Keeps what was read.
fn push<T: Drop>(items: &mut Vec<T>, item: T) -> Result<(), RecordFault>
    ensures kept { KeptOr None items.new.items (items.old.items ++ item ∷ []) result }
    ensures unchanged { OnErr result (items.new.items ≡ items.old.items) }
{
    match items.push(item) {
        Ok(()) => Ok(()),
        Err(_) => Err(RecordFault::NoMemory),
    }
}

/// What is fixed, with a ramp.
fn with_ramp(setup: &Setup, ramp: Ramp) -> Setup
    ensures { result ≡ record setup.now { ramp = Some ramp } }
{
    Setup {
        ramp: Some(ramp),
        ..*setup
    }
}

impl Reading {
    /// The events and jitters so far.
    fn events_count(&self) -> usize
        ensures { result ≡ events_so_far (seen_of self.now) }
    {
        self.events.as_slice().len() + self.jitters.as_slice().len()
    }

    /// A record `ramp`.
    pub fn ramp(&mut self, row: &ByteRecord) -> Result<(), RecordFault>
        requires { length (texts_of row.now) < 2 ^ 32 }
        ensures { StepsTo (of_kind (seen_of self.old) (texts_of row.now) self.old.stage kind.Ramp)
            (seen_of self.new) result }
    {
        let Stage::Body(setup) = &self.stage else {
            return misplaced();
        };
        if setup.ramp.is_some() || !self.words.as_slice().is_empty() {
            return misplaced();
        }
        match read_ramp(row, &setup.link.shape()) {
            Ok(ramp) => {
                self.stage = Stage::Body(with_ramp(setup, ramp));
                Ok(())
            }
            Err(fault) => Err(RecordFault::Bad(fault)),
        }
    }

    /// A record `delay`.
    pub fn delay(&mut self, row: &ByteRecord) -> Result<(), RecordFault>
        requires { length (texts_of row.now) < 2 ^ 32 }
        ensures { StepsTo (of_kind (seen_of self.old) (texts_of row.now) self.old.stage kind.Delay)
            (seen_of self.new) result }
    {
        let events = self.events_count();
        let Stage::Body(setup) = &self.stage else {
            return misplaced();
        };
        match read_delay(row, setup, events) {
            Ok(event) => push(&mut self.events, event),
            Err(fault) => Err(RecordFault::Bad(fault)),
        }
    }

    /// A record `reset`.
    pub fn reset(&mut self, row: &ByteRecord) -> Result<(), RecordFault>
        requires { length (texts_of row.now) < 2 ^ 32 }
        ensures { StepsTo (of_kind (seen_of self.old) (texts_of row.now) self.old.stage kind.Reset)
            (seen_of self.new) result }
    {
        let events = self.events_count();
        let Stage::Body(setup) = &self.stage else {
            return misplaced();
        };
        match read_reset(row, setup, events) {
            Ok(event) => push(&mut self.events, event),
            Err(fault) => Err(RecordFault::Bad(fault)),
        }
    }

    /// A record `dead`.
    pub fn dead(&mut self, row: &ByteRecord) -> Result<(), RecordFault>
        requires { length (texts_of row.now) < 2 ^ 32 }
        ensures { StepsTo (of_kind (seen_of self.old) (texts_of row.now) self.old.stage kind.Dead)
            (seen_of self.new) result }
    {
        let events = self.events_count();
        let Stage::Body(setup) = &self.stage else {
            return misplaced();
        };
        match read_dead(row, setup, events) {
            Ok(event) => push(&mut self.events, event),
            Err(fault) => Err(RecordFault::Bad(fault)),
        }
    }

    /// A record `jitter`.
    pub fn jitter(&mut self, row: &ByteRecord) -> Result<(), RecordFault>
        requires { length (texts_of row.now) < 2 ^ 32 }
        ensures { StepsTo (of_kind (seen_of self.old) (texts_of row.now) self.old.stage kind.Jitter)
            (seen_of self.new) result }
    {
        let events = self.events_count();
        let Stage::Body(_) = &self.stage else {
            return misplaced();
        };
        match read_jitter(row, events) {
            Ok(jitter) => push(&mut self.jitters, jitter),
            Err(fault) => Err(RecordFault::Bad(fault)),
        }
    }

    /// A record `flip`.
    pub fn flip(&mut self, row: &ByteRecord) -> Result<(), RecordFault>
        requires { length (texts_of row.now) < 2 ^ 32 }
        ensures { StepsTo (of_kind (seen_of self.old) (texts_of row.now) self.old.stage kind.Flip)
            (seen_of self.new) result }
    {
        let Stage::Body(setup) = &self.stage else {
            return misplaced();
        };
        match read_flip(row, setup, self.flipped_bits) {
            Ok(flip) => {
                push(&mut self.flips, flip)?;
                self.flipped_bits += flip.count;
                Ok(())
            }
            Err(fault) => Err(RecordFault::Bad(fault)),
        }
    }

    /// A record `wire`.
    pub fn wire(&mut self, row: &ByteRecord) -> Result<(), RecordFault>
        requires { length (texts_of row.now) < 2 ^ 32 }
        ensures { StepsTo (of_kind (seen_of self.old) (texts_of row.now) self.old.stage kind.Wire)
            (seen_of self.new) result }
    {
        let Stage::Body(setup) = &self.stage else {
            return misplaced();
        };
        if !self.wire.as_slice().is_empty() {
            return misplaced();
        }
        read_lanes(row, &setup.link.shape(), &mut self.wire)
    }

    /// A record `route`.
    pub fn route(&mut self, row: &ByteRecord) -> Result<(), RecordFault>
        requires { length (texts_of row.now) < 2 ^ 32 }
        ensures { StepsTo (of_kind (seen_of self.old) (texts_of row.now) self.old.stage kind.Route)
            (seen_of self.new) result }
    {
        let Stage::Body(setup) = &self.stage else {
            return misplaced();
        };
        if !self.route.as_slice().is_empty() {
            return misplaced();
        }
        read_lanes(row, &setup.link.shape(), &mut self.route)
    }

    /// A record `polarity`.
    pub fn polarity(&mut self, row: &ByteRecord) -> Result<(), RecordFault>
        requires { length (texts_of row.now) < 2 ^ 32 }
        ensures { StepsTo (of_kind (seen_of self.old) (texts_of row.now) self.old.stage
            kind.Polarity) (seen_of self.new) result }
    {
        let Stage::Body(setup) = &self.stage else {
            return misplaced();
        };
        match read_polarity(row, &setup.link.shape()) {
            Ok(polarity) => push(&mut self.polarities, polarity),
            Err(fault) => Err(RecordFault::Bad(fault)),
        }
    }
}
