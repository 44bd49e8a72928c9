//! One record more.
ghost use Rattle.std.specs.Prelude.{◌≡◌, ◌<◌, ◌^◌, unwrap_or, Err, length};
ghost use Rattle.scenario.specs.declared.cause.Cause.TheVariants as cause;
ghost use Rattle.scenario.specs.Check.{ReadOr, fault};
ghost use Rattle.scenario.specs.declared.fault.RecordFault.TheVariants.{Bad};
ghost use Rattle.scenario.specs.declared.kind.Kind.TheVariants as kind;
ghost use Rattle.scenario.specs.Reads.{texts_of, field, nothing, step, of_kind, version_of, version_fault, after_link};
ghost use Rattle.scenario.specs.Answer.{seen_of, StepsTo};

use crate::cause::Cause;
use crate::fault::{Fault, RecordFault};
use crate::frame::{read_frame, read_octets};
use crate::kind::{Job, Kind};
use crate::link::read_link;
use crate::reading::Reading;
use crate::row::{count, field_at, is_named, read_kind, read_version};
use crate::run::read_run;
use crate::stage::Stage;
use crate::timing::read_timing;
use csv::ByteRecord;
use link_params::Shape;
use std::alloc::Global;

/// The version that the first record names.
fn first_version(row: &ByteRecord) -> Result<u32, Fault>
    requires { length (texts_of row.now) < 2 ^ 32 }
    ensures { ReadOr (version_fault (texts_of row.now))
        (unwrap_or (version_of (field (texts_of row.now) 1)) 0) result }
{
    if !is_named(field_at(row, 0), b"jesd") {
        return Err(Cause::Version.at(0));
    }
    let fields = count(row);
    if fields != 2 {
        return Err(Cause::FieldCount.at(fields));
    }
    match read_version(field_at(row, 1)) {
        Some(version) => Ok(version),
        None => Err(Cause::Version.at(1)),
    }
}

fn stage_after_link(job: Job, shape: Shape) -> Stage
    ensures { result ≡ after_link job shape }
{
    match job {
        Job::Map => Stage::Frames(shape),
        Job::Unmap => Stage::Octets(shape),
        Job::Run => Stage::Timing(shape),
    }
}

/// A known kind that stands where it is not allowed.
pub fn misplaced() -> Result<(), RecordFault>
    ensures { result ≡ Err (Bad (fault cause.Misplaced 0)) }
{
    Err(RecordFault::Bad(Cause::Misplaced.at(0)))
}

impl Reading {
    /// No record was read.
    pub fn new(alloc: Global) -> Reading
        ensures { seen_of result ≡ nothing }
    {
        Reading {
            version: 0,
            stage: Stage::Version,
            words: Vec::new(alloc),
            octets: Vec::new(alloc),
            events: Vec::new(alloc),
            jitters: Vec::new(alloc),
            flips: Vec::new(alloc),
            wire: Vec::new(alloc),
            route: Vec::new(alloc),
            polarities: Vec::new(alloc),
            flipped_bits: 0,
        }
    }

    fn link(&mut self, row: &ByteRecord) -> Result<(), RecordFault>
        requires { length (texts_of row.now) < 2 ^ 32 }
        ensures { StepsTo (of_kind (seen_of self.old) (texts_of row.now) self.old.stage kind.Link)
            (seen_of self.new) result }
    {
        let Stage::Link(job) = self.stage else {
            return misplaced();
        };
        match read_link(row) {
            Ok(shape) => {
                self.stage = stage_after_link(job, shape);
                Ok(())
            }
            Err(fault) => Err(RecordFault::Bad(fault)),
        }
    }

    fn timing(&mut self, row: &ByteRecord) -> Result<(), RecordFault>
        requires { length (texts_of row.now) < 2 ^ 32 }
        ensures { StepsTo (of_kind (seen_of self.old) (texts_of row.now) self.old.stage kind.Timing)
            (seen_of self.new) result }
    {
        let Stage::Timing(shape) = &self.stage else {
            return misplaced();
        };
        match read_timing(row, shape) {
            Ok(link) => {
                self.stage = Stage::Run(link);
                Ok(())
            }
            Err(fault) => Err(RecordFault::Bad(fault)),
        }
    }

    fn run(&mut self, row: &ByteRecord) -> Result<(), RecordFault>
        requires { length (texts_of row.now) < 2 ^ 32 }
        ensures { StepsTo (of_kind (seen_of self.old) (texts_of row.now) self.old.stage kind.Run)
            (seen_of self.new) result }
    {
        let Stage::Run(link) = &self.stage else {
            return misplaced();
        };
        match read_run(row, link) {
            Ok(setup) => {
                self.stage = Stage::Body(setup);
                Ok(())
            }
            Err(fault) => Err(RecordFault::Bad(fault)),
        }
    }

    fn frame(&mut self, row: &ByteRecord) -> Result<(), RecordFault>
        requires { length (texts_of row.now) < 2 ^ 32 }
        ensures { StepsTo (of_kind (seen_of self.old) (texts_of row.now) self.old.stage kind.Frame)
            (seen_of self.new) result }
    {
        match &self.stage {
            Stage::Frames(shape) => read_frame(row, shape, &mut self.words),
            Stage::Body(setup) => {
                if setup.ramp.is_some() {
                    return misplaced();
                }
                read_frame(row, &setup.link.shape(), &mut self.words)
            }
            _ => misplaced(),
        }
    }

    fn octets(&mut self, row: &ByteRecord) -> Result<(), RecordFault>
        requires { length (texts_of row.now) < 2 ^ 32 }
        ensures { StepsTo (of_kind (seen_of self.old) (texts_of row.now) self.old.stage kind.Octets)
            (seen_of self.new) result }
    {
        let Stage::Octets(shape) = &self.stage else {
            return misplaced();
        };
        read_octets(row, shape, &mut self.octets)
    }

    /// A record of a known kind.
    fn known(&mut self, kind: Kind, row: &ByteRecord) -> Result<(), RecordFault>
        requires { length (texts_of row.now) < 2 ^ 32 }
        ensures { StepsTo (of_kind (seen_of self.old) (texts_of row.now) self.old.stage kind)
            (seen_of self.new) result }
    {
        match kind {
            Kind::Jesd => misplaced(),
            Kind::Link => self.link(row),
            Kind::Timing => self.timing(row),
            Kind::Run => self.run(row),
            Kind::Frame => self.frame(row),
            Kind::Octets => self.octets(row),
            Kind::Ramp => self.ramp(row),
            Kind::Delay => self.delay(row),
            Kind::Reset => self.reset(row),
            Kind::Dead => self.dead(row),
            Kind::Jitter => self.jitter(row),
            Kind::Flip => self.flip(row),
            Kind::Wire => self.wire(row),
            Kind::Route => self.route(row),
            Kind::Polarity => self.polarity(row),
        }
    }

    /// One record more.
    pub fn step(&mut self, job: Job, row: &ByteRecord) -> Result<(), RecordFault>
        requires { length (texts_of row.now) < 2 ^ 32 }
        ensures { StepsTo (step job (seen_of self.old) (texts_of row.now)) (seen_of self.new)
            result }
    {
        if let Stage::Version = self.stage {
            return match first_version(row) {
                Ok(version) => {
                    self.version = version;
                    self.stage = Stage::Link(job);
                    Ok(())
                }
                Err(fault) => Err(RecordFault::Bad(fault)),
            };
        }
        match read_kind(self.version, field_at(row, 0)) {
            Some(kind) => self.known(kind, row),
            None => Err(RecordFault::Bad(Cause::UnknownKind.at(0))),
        }
    }
}
