//! The records `delay`, `reset` and `dead`.
ghost use Rattle.std.specs.Prelude.{◌≡◌, ◌≤◌, ◌<◌, ◌^◌, length};
ghost use Rattle.scenario.specs.Check.{ReadOr, fault_of};
ghost use Rattle.scenario.specs.Reads.{texts_of, delay_checks, delay_of, reset_checks, reset_of, dead_checks, dead_of};

use crate::cause::Cause;
use crate::fault::Fault;
use crate::plan::{Event, What};
use crate::row::{count, field_at, read_device, read_numbers};
use crate::stage::Setup;
use crate::text::read_number;
use csv::ByteRecord;

/// Events and jitters together are at most so many.
pub const MOST_EVENTS: usize = 4096;

/// A new delay of a lane's line, in a run that has so many events and jitters already.
pub fn read_delay(row: &ByteRecord, setup: &Setup, events: usize) -> Result<Event, Fault>
    requires { length (texts_of row.now) < 2 ^ 32 }
    ensures { ReadOr
        (fault_of (length (texts_of row.now)) (delay_checks events setup.now (texts_of row.now)))
        (delay_of (texts_of row.now)) result }
{
    let fields = count(row);
    if fields != 4 {
        return Err(Cause::FieldCount.at(fields));
    }
    let mut numbers = [0; 3];
    read_numbers(row, 1, &mut numbers)?;
    let [tick, lane, bits] = numbers;
    let shape = setup.link.shape();
    if tick >= setup.ticks {
        return Err(Cause::Range.at(1));
    }
    if lane >= shape.lanes() {
        return Err(Cause::Range.at(2));
    }
    if bits > (shape.period() - 1) * shape.width() {
        return Err(Cause::Range.at(3));
    }
    if events >= MOST_EVENTS {
        return Err(Cause::TooMany.at(0));
    }
    Ok(Event {
        tick,
        what: What::Delay { lane, bits },
    })
}

/// The end of a lane's line, or its return.
pub fn read_dead(row: &ByteRecord, setup: &Setup, events: usize) -> Result<Event, Fault>
    requires { length (texts_of row.now) < 2 ^ 32 }
    ensures { ReadOr
        (fault_of (length (texts_of row.now)) (dead_checks events setup.now (texts_of row.now)))
        (dead_of (texts_of row.now)) result }
{
    let fields = count(row);
    if fields != 4 {
        return Err(Cause::FieldCount.at(fields));
    }
    let mut numbers = [0; 3];
    read_numbers(row, 1, &mut numbers)?;
    let [tick, lane, on] = numbers;
    if tick >= setup.ticks {
        return Err(Cause::Range.at(1));
    }
    if lane >= setup.link.shape().lanes() {
        return Err(Cause::Range.at(2));
    }
    if on > 1 {
        return Err(Cause::Range.at(3));
    }
    if events >= MOST_EVENTS {
        return Err(Cause::TooMany.at(0));
    }
    Ok(Event {
        tick,
        what: What::Dead { lane, on: on == 1 },
    })
}

/// A reset of a device.
pub fn read_reset(row: &ByteRecord, setup: &Setup, events: usize) -> Result<Event, Fault>
    requires { length (texts_of row.now) < 2 ^ 32 }
    ensures { ReadOr
        (fault_of (length (texts_of row.now)) (reset_checks events setup.now (texts_of row.now)))
        (reset_of (texts_of row.now)) result }
{
    let fields = count(row);
    if fields != 3 {
        return Err(Cause::FieldCount.at(fields));
    }
    let Some(tick) = read_number(field_at(row, 1)) else {
        return Err(Cause::Form.at(1));
    };
    let Some(device) = read_device(field_at(row, 2)) else {
        return Err(Cause::Form.at(2));
    };
    if tick >= setup.ticks {
        return Err(Cause::Range.at(1));
    }
    if events >= MOST_EVENTS {
        return Err(Cause::TooMany.at(0));
    }
    Ok(Event {
        tick,
        what: What::Reset(device),
    })
}
