//! The record `link`.
ghost use Rattle.std.specs.Prelude.{◌≡◌, ◌≤◌, ◌<◌, ◌^◌, length};
ghost use Rattle.scenario.specs.Check.{ReadOr, fault_of, basic_fault};
ghost use Rattle.scenario.specs.Reads.{texts_of, link_checks, params_of};

use crate::cause::Cause;
use crate::fault::Fault;
use crate::row::{count, field_at, read_mode, read_numbers};
use csv::ByteRecord;
use link_params::{Params, Shape};

/// The parameters that a record `link` names, before their laws.
fn read_params(row: &ByteRecord) -> Result<Params, Fault>
    requires { length (texts_of row.now) < 2 ^ 32 }
    ensures { ReadOr (basic_fault (length (texts_of row.now)) (link_checks (texts_of row.now)))
        (params_of (texts_of row.now)) result }
{
    let fields = count(row);
    if fields != 13 {
        return Err(Cause::FieldCount.at(fields));
    }
    let Some(mode) = read_mode(field_at(row, 1)) else {
        return Err(Cause::Form.at(1));
    };
    let mut numbers = [0; 11];
    read_numbers(row, 2, &mut numbers)?;
    let [l, m, f, s, n, np, cs, hd, scr, k, e] = numbers;
    if hd > 1 {
        return Err(Cause::Range.at(9));
    }
    if scr > 1 {
        return Err(Cause::Range.at(10));
    }
    Ok(Params {
        mode,
        l,
        m,
        f,
        s,
        n,
        np,
        cs,
        hd: hd == 1,
        scr: scr == 1,
        k,
        e,
    })
}

/// The shape that a record `link` names.
pub fn read_link(row: &ByteRecord) -> Result<Shape, Fault>
    requires { length (texts_of row.now) < 2 ^ 32 }
    ensures { ReadOr (fault_of (length (texts_of row.now)) (link_checks (texts_of row.now)))
        (params_of (texts_of row.now)) result }
{
    let params = read_params(row)?;
    match params.check() {
        Ok(shape) => Ok(shape),
        Err(law) => Err(Cause::Law.at(u32::from(law.0))),
    }
}
