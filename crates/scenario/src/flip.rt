//! The record `flip`.
ghost use Rattle.std.specs.Prelude.{◌≡◌, ◌≤◌, ◌<◌, ◌^◌, length};
ghost use Rattle.scenario.specs.Check.{ReadOr, fault_of};
ghost use Rattle.scenario.specs.Reads.{texts_of, flip_checks, flip_of};

use crate::cause::Cause;
use crate::fault::Fault;
use crate::plan::Flip;
use crate::row::{count, read_numbers};
use crate::stage::Setup;
use csv::ByteRecord;

/// Flips together invert at most so many bits.
const MOST_FLIPPED: u64 = 65536;

/// A flip of received bits, in a run where so many bits are flipped already.
pub fn read_flip(row: &ByteRecord, setup: &Setup, flipped: u32) -> Result<Flip, Fault>
    requires { length (texts_of row.now) < 2 ^ 32 }
    ensures { ReadOr
        (fault_of (length (texts_of row.now)) (flip_checks flipped setup.now (texts_of row.now)))
        (flip_of (texts_of row.now)) result }
{
    let fields = count(row);
    if fields != 4 {
        return Err(Cause::FieldCount.at(fields));
    }
    let mut numbers = [0; 3];
    read_numbers(row, 1, &mut numbers)?;
    let [lane, first, count] = numbers;
    let shape = setup.link.shape();
    if lane >= shape.lanes() {
        return Err(Cause::Range.at(1));
    }
    let bits = u64::from(shape.width()) * u64::from(setup.ticks);
    if u64::from(first) >= bits {
        return Err(Cause::Range.at(2));
    }
    if count < 1 || u64::from(first) + u64::from(count) > bits {
        return Err(Cause::Range.at(3));
    }
    if u64::from(flipped) + u64::from(count) > MOST_FLIPPED {
        return Err(Cause::TooMany.at(0));
    }
    Ok(Flip {
        lane,
        first: u64::from(first),
        count,
    })
}
