//! The record `ramp`.
ghost use Rattle.std.specs.Prelude.{◌≡◌, ◌≤◌, ◌<◌, ◌^◌, length};
ghost use Rattle.scenario.specs.Check.{ReadOr, fault_of};
ghost use Rattle.scenario.specs.Reads.{texts_of, ramp_checks, ramp_of};

use crate::cause::Cause;
use crate::fault::Fault;
use crate::frame::limit_of;
use crate::row::{count, read_numbers};
use crate::stage::Ramp;
use csv::ByteRecord;
use link_params::Shape;

/// A ramp of words.
pub fn read_ramp(row: &ByteRecord, shape: &Shape) -> Result<Ramp, Fault>
    requires { length (texts_of row.now) < 2 ^ 32 }
    ensures { ReadOr (fault_of (length (texts_of row.now)) (ramp_checks shape.now (texts_of row.now)))
        (ramp_of (texts_of row.now)) result }
{
    let fields = count(row);
    if fields != 3 {
        return Err(Cause::FieldCount.at(fields));
    }
    let mut numbers = [0; 2];
    read_numbers(row, 1, &mut numbers)?;
    let [start, step] = numbers;
    let limit = limit_of(shape);
    if u64::from(start) >= limit {
        return Err(Cause::Range.at(1));
    }
    if u64::from(step) >= limit {
        return Err(Cause::Range.at(2));
    }
    Ok(Ramp { start, step })
}
