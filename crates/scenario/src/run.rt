//! The record `run`.
ghost use Rattle.std.specs.Prelude.{◌≡◌, ◌≤◌, ◌<◌, ◌^◌, length};
ghost use Rattle.scenario.specs.Check.{ReadOr, fault_of};
ghost use Rattle.scenario.specs.Reads.{texts_of, copies, is_small_run, run_checks, setup_of};

use crate::cause::Cause;
use crate::fault::Fault;
use crate::plan::Print;
use crate::row::{count, field_at, read_print};
use crate::stage::Setup;
use crate::text::read_number;
use csv::ByteRecord;
use link_params::{Link, Shape};

/// A run has at most so many ticks.
const MOST_TICKS: u32 = 1_048_576;

/// How often a frame is printed at most.
fn copies_of(print: Print) -> u64
    ensures value { result ≡ copies print }
    ensures bound { result ≤ 2 }
{
    match print {
        Print::None => 0,
        Print::Frames => 1,
        Print::All => 2,
    }
}

/// Whether the octets of all lanes and the printed words stay within their limits.
fn is_small(shape: &Shape, ticks: u32, print: Print) -> bool
    requires { ticks ≤ 1048576 }
    ensures { result ≡ is_small_run shape.now ticks print }
{
    let ticks = u64::from(ticks);
    let octets_per_tick = u64::from(shape.octets_per_tick());
    let frames = ticks * octets_per_tick / u64::from(shape.frame_octets());
    let words = copies_of(print) * frames * u64::from(shape.frame_words());
    ticks * u64::from(shape.lanes()) * octets_per_tick <= 4_194_304 && words <= 2_097_152
}

/// The ticks of a run, and what is printed of it.
pub fn read_run(row: &ByteRecord, link: &Link) -> Result<Setup, Fault>
    requires { length (texts_of row.now) < 2 ^ 32 }
    ensures { ReadOr
        (fault_of (length (texts_of row.now)) (run_checks link.now.params (texts_of row.now)))
        (setup_of link.now (texts_of row.now)) result }
{
    let fields = count(row);
    if fields != 3 {
        return Err(Cause::FieldCount.at(fields));
    }
    let Some(ticks) = read_number(field_at(row, 1)) else {
        return Err(Cause::Form.at(1));
    };
    let Some(print) = read_print(field_at(row, 2)) else {
        return Err(Cause::Form.at(2));
    };
    if ticks < 1 || ticks > MOST_TICKS {
        return Err(Cause::Range.at(1));
    }
    if !is_small(&link.shape(), ticks, print) {
        return Err(Cause::RunSize.at(1));
    }
    Ok(Setup {
        link: *link,
        ticks,
        print,
        ramp: None,
    })
}
