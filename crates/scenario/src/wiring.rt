//! The records `wire`, `route` and `polarity`.
ghost use Rattle.std.specs.Prelude.{◌≡◌, ◌==◌, ◌≤◌, ◌<◌, ◌-◌, ◌^◌, ◌&&◌, nat_lt, not, [], ℕ, length, slice_index, take, IfOk};
ghost use Rattle.std.specs.List.{list_any};
ghost use Rattle.scenario.specs.Check.{KeptOr, ReadOr, fault_of, lowest};
ghost use Rattle.scenario.specs.Plans.{lanes_or, numbers_from};
ghost use Rattle.scenario.specs.Reads.{texts_of, are_lanes, lanes_checks, lanes_in_fields, polarity_checks, polarity_of};

use crate::cause::Cause;
use crate::fault::{Fault, RecordFault};
use crate::row::{count, read_numbers};
use crate::stage::Polarity;
use csv::ByteRecord;
use link_params::Shape;
use std::alloc::{AllocError, Global};

/// The place, counted from 1, of the first lane that is none of the link's or stands before it too.
fn first_repeated(lanes: &[u32], limit: u32) -> Option<u32>
    requires { length lanes.now < 2 ^ 32 - 1 }
    ensures { result ≡ lowest 1 (are_lanes limit [] lanes.now) }
{
    for at in 0..lanes.len() {
        if !is_fresh(lanes, at, limit) {
            return Some(at as u32 + 1);
        }
    }
    None
}

/// Whether a lane is one of the link's, and none of those before it.
fn is_fresh(lanes: &[u32], at: usize, limit: u32) -> bool
    requires { at < length lanes.now }
    ensures { result ≡ (nat_lt (slice_index lanes.now at) limit
        && not (list_any (λ x. x == slice_index lanes.now at) (take at lanes.now))) }
{
    lanes[at] < limit && !is_among(&lanes[..at], lanes[at])
}

/// Whether a lane is one of these.
fn is_among(lanes: &[u32], lane: u32) -> bool
    ensures { result ≡ list_any (λ x. x == lane) lanes.now }
{
    for other in lanes {
        if *other == lane {
            return true;
        }
    }
    false
}

/// The lanes in their order. The error is want of memory.
pub fn all_lanes(alloc: Global, count: u32) -> Result<Vec<u32>, AllocError>
    ensures { IfOk result (λ v. v.items ≡ numbers_from 0 count) }
{
    let mut lanes = Vec::with_capacity(alloc, count as usize)?;
    for lane in 0..count {
        lanes.push(lane)?;
    }
    Ok(lanes)
}

/// The lanes of a record, or all lanes in their order where there was none. The error is want of
/// memory.
pub fn lanes_or(alloc: Global, lanes: Vec<u32>, count: u32) -> Result<Vec<u32>, AllocError>
    ensures { IfOk result (λ v. v.items ≡ lanes_or count lanes.items) }
{
    if lanes.as_slice().is_empty() {
        all_lanes(alloc, count)
    } else {
        Ok(lanes)
    }
}

/// The lanes of a record `wire` or `route`: each lane of the link in one field.
pub fn read_lanes(row: &ByteRecord, shape: &Shape, lanes: &mut Vec<u32>) -> Result<(), RecordFault>
    requires few { length (texts_of row.now) < 2 ^ 32 }
    requires none { lanes.old.items ≡ [] }
    ensures { KeptOr (fault_of (length (texts_of row.now)) (lanes_checks shape.now (texts_of row.now)))
        lanes.new.items (lanes_in_fields shape.now (texts_of row.now)) result }
{
    let fields = count(row);
    if fields != shape.lanes() + 1 {
        return Err(RecordFault::Bad(Cause::FieldCount.at(fields)));
    }
    let mut numbers = [0; 32];
    let read = &mut numbers[..shape.lanes() as usize];
    if let Err(fault) = read_numbers(row, 1, read) {
        return Err(RecordFault::Bad(fault));
    }
    if let Some(at) = first_repeated(read, shape.lanes()) {
        return Err(RecordFault::Bad(Cause::Range.at(at)));
    }
    match lanes.extend_from_slice(read) {
        Ok(()) => Ok(()),
        Err(_) => Err(RecordFault::NoMemory),
    }
}

/// Whether the wires of a lane are exchanged, and whether the receiver undoes it.
pub fn read_polarity(row: &ByteRecord, shape: &Shape) -> Result<Polarity, Fault>
    requires { length (texts_of row.now) < 2 ^ 32 }
    ensures { ReadOr (fault_of (length (texts_of row.now)) (polarity_checks shape.now (texts_of row.now)))
        (polarity_of (texts_of row.now)) result }
{
    let fields = count(row);
    if fields != 4 {
        return Err(Cause::FieldCount.at(fields));
    }
    let mut numbers = [0; 3];
    read_numbers(row, 1, &mut numbers)?;
    let [lane, exchange, undo] = numbers;
    if lane >= shape.lanes() {
        return Err(Cause::Range.at(1));
    }
    if exchange > 1 {
        return Err(Cause::Range.at(2));
    }
    if undo > 1 {
        return Err(Cause::Range.at(3));
    }
    Ok(Polarity {
        lane,
        inverted: exchange != undo,
    })
}
