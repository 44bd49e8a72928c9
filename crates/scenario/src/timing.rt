//! The record `timing`.
ghost use Rattle.std.specs.Prelude.{◌≡◌, ◌≤◌, ◌<◌, ◌^◌, length};
ghost use Rattle.link_params.specs.declared.fields.Params.{Params};
ghost use Rattle.scenario.specs.Check.{ReadOr, basic_fault, fault_of};
ghost use Rattle.scenario.specs.Reads.{texts_of, timing_checks, timing_of};

use crate::cause::Cause;
use crate::fault::Fault;
use crate::row::{count, read_numbers};
use csv::ByteRecord;
use link_params::{Link, Shape, Timing};

/// The timing that a record `timing` names, before its laws.
fn read_fields(row: &ByteRecord) -> Result<Timing, Fault>
    requires { length (texts_of row.now) < 2 ^ 32 }
    ensures { (p : Params)
        → ReadOr (basic_fault (length (texts_of row.now)) (timing_checks p (texts_of row.now)))
        (timing_of (texts_of row.now)) result }
{
    let fields = count(row);
    if fields != 10 {
        return Err(Cause::FieldCount.at(fields));
    }
    let mut numbers = [0; 9];
    read_numbers(row, 1, &mut numbers)?;
    let [
        sysref_period,
        sysref_start,
        tx_skew,
        rx_skew,
        tolerance,
        rbd,
        sync_delay,
        w_lo,
        w_hi,
    ] = numbers;
    Ok(Timing {
        sysref_period,
        sysref_start,
        tx_skew,
        rx_skew,
        tolerance,
        rbd,
        sync_delay,
        w_lo,
        w_hi,
    })
}

/// The link of this shape with the timing that a record `timing` names.
pub fn read_timing(row: &ByteRecord, shape: &Shape) -> Result<Link, Fault>
    requires { length (texts_of row.now) < 2 ^ 32 }
    ensures { ReadOr (fault_of (length (texts_of row.now)) (timing_checks shape.now (texts_of row.now)))
        (record { params = shape.now; timing = timing_of (texts_of row.now) }) result }
{
    let timing = read_fields(row)?;
    match shape.with(&timing) {
        Ok(link) => Ok(link),
        Err(law) => Err(Cause::Law.at(u32::from(law.0))),
    }
}
