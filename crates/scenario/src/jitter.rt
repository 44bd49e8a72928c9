//! The record `jitter`.
ghost use Rattle.std.specs.Prelude.{◌≡◌, ◌≤◌, ◌<◌, ◌^◌, length};
ghost use Rattle.scenario.specs.Check.{ReadOr, fault_of};
ghost use Rattle.scenario.specs.Reads.{texts_of, jitter_checks, jitter_of};

use crate::cause::Cause;
use crate::event::MOST_EVENTS;
use crate::fault::Fault;
use crate::plan::Jitter;
use crate::row::{count, field_at, read_device};
use crate::text::{read_number, read_signed};
use csv::ByteRecord;

/// A jitter of an edge, in a run that has so many events and jitters already.
pub fn read_jitter(row: &ByteRecord, events: usize) -> Result<Jitter, Fault>
    requires { length (texts_of row.now) < 2 ^ 32 }
    ensures { ReadOr (fault_of (length (texts_of row.now)) (jitter_checks events (texts_of row.now)))
        (jitter_of (texts_of row.now)) result }
{
    let fields = count(row);
    if fields != 4 {
        return Err(Cause::FieldCount.at(fields));
    }
    let Some(device) = read_device(field_at(row, 1)) else {
        return Err(Cause::Form.at(1));
    };
    let Some(edge) = read_number(field_at(row, 2)) else {
        return Err(Cause::Form.at(2));
    };
    let Some(sixteenths) = read_signed(field_at(row, 3)) else {
        return Err(Cause::Form.at(3));
    };
    if edge > 1_048_576 {
        return Err(Cause::Range.at(2));
    }
    if sixteenths < -32 || sixteenths > 32 {
        return Err(Cause::Range.at(3));
    }
    if events >= MOST_EVENTS {
        return Err(Cause::TooMany.at(0));
    }
    Ok(Jitter {
        device,
        edge,
        sixteenths: sixteenths as i32,
    })
}
