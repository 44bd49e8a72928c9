//! The fields of one record.
ghost use Rattle.std.specs.Prelude.{◌≡◌, ◌≤◌, ◌<◌, ◌^◌, ◌+◌, length};
ghost use Rattle.std.specs.Str.{bytes_eq};
ghost use Rattle.scenario.specs.Reads.{texts_of, field, ReadNumbers, mode_of, print_of, device_of, find_named, kinds_1, kinds_2, kind_of, version_of};

use crate::cause::Cause;
use crate::fault::Fault;
use crate::kind::Kind;
use crate::plan::Print;
use crate::text::{bare, read_number};
use csv::ByteRecord;
use link_params::{Device, Mode};

/// The field at a place, with no blanks at its ends; nothing where there is none.
pub fn field_at(row: &ByteRecord, i: u32) -> &[u8]
    ensures { result.now ≡ field (texts_of row.now) i }
{
    match row.get(i as usize) {
        Some(text) => bare(text),
        None => &[],
    }
}

/// How many fields there are.
pub fn count(row: &ByteRecord) -> u32
    requires { length (texts_of row.now) < 2 ^ 32 }
    ensures { result ≡ length (texts_of row.now) }
{
    row.len() as u32
}

/// Reads numbers from a place on, as many as there is room for.
pub fn read_numbers(row: &ByteRecord, from: u32, numbers: &mut [u32]) -> Result<(), Fault>
    requires { from + length numbers.old < 2 ^ 32 }
    ensures { ReadNumbers from (texts_of row.now) numbers.new result }
{
    let mut at = from;
    for slot in numbers.iter_mut() {
        match read_number(field_at(row, at)) {
            Some(n) => *slot = n,
            None => return Err(Cause::Form.at(at)),
        }
        at += 1;
    }
    Ok(())
}

/// The mode of this name.
pub fn read_mode(text: &[u8]) -> Option<Mode>
    ensures { result ≡ mode_of text.now }
{
    match text {
        b"b" => Some(Mode::B),
        b"ccrc" => Some(Mode::CCrc),
        b"cfec" => Some(Mode::CFec),
        _ => None,
    }
}

/// What is printed, by this name.
pub fn read_print(text: &[u8]) -> Option<Print>
    ensures { result ≡ print_of text.now }
{
    if is_named(text, b"none") {
        Some(Print::None)
    } else if is_named(text, b"frames") {
        Some(Print::Frames)
    } else if is_named(text, b"all") {
        Some(Print::All)
    } else {
        None
    }
}

/// The device of this name.
pub fn read_device(text: &[u8]) -> Option<Device>
    ensures { result ≡ device_of text.now }
{
    match text {
        b"tx" => Some(Device::Tx),
        b"rx" => Some(Device::Rx),
        _ => None,
    }
}

/// Whether a text is this name.
pub fn is_named(text: &[u8], name: &[u8]) -> bool
    ensures { result ≡ bytes_eq text.now name.now }
{
    text == name
}

fn read_first_kinds(text: &[u8]) -> Option<Kind>
    ensures { result ≡ find_named text.now kinds_1 }
{
    if is_named(text, b"jesd") {
        Some(Kind::Jesd)
    } else if is_named(text, b"link") {
        Some(Kind::Link)
    } else if is_named(text, b"timing") {
        Some(Kind::Timing)
    } else if is_named(text, b"run") {
        Some(Kind::Run)
    } else if is_named(text, b"frame") {
        Some(Kind::Frame)
    } else if is_named(text, b"octets") {
        Some(Kind::Octets)
    } else if is_named(text, b"ramp") {
        Some(Kind::Ramp)
    } else if is_named(text, b"delay") {
        Some(Kind::Delay)
    } else if is_named(text, b"reset") {
        Some(Kind::Reset)
    } else if is_named(text, b"dead") {
        Some(Kind::Dead)
    } else if is_named(text, b"jitter") {
        Some(Kind::Jitter)
    } else if is_named(text, b"flip") {
        Some(Kind::Flip)
    } else {
        None
    }
}

fn read_second_kinds(text: &[u8]) -> Option<Kind>
    ensures { result ≡ find_named text.now kinds_2 }
{
    if is_named(text, b"wire") {
        Some(Kind::Wire)
    } else if is_named(text, b"route") {
        Some(Kind::Route)
    } else if is_named(text, b"polarity") {
        Some(Kind::Polarity)
    } else {
        None
    }
}

/// The kind of this name, in a version of the format.
#[tactic(auto, unfolding(crate::specs::Reads::kind_of))]
pub fn read_kind(version: u32, text: &[u8]) -> Option<Kind>
    ensures { result ≡ kind_of version text.now }
{
    match read_first_kinds(text) {
        Some(kind) => Some(kind),
        None => {
            if version >= 2 {
                read_second_kinds(text)
            } else {
                None
            }
        }
    }
}

/// The version of this name.
pub fn read_version(text: &[u8]) -> Option<u32>
    ensures { result ≡ version_of text.now }
{
    match text {
        b"1" => Some(1),
        b"2" => Some(2),
        _ => None,
    }
}
