//! The records `frame` and `octets`.
ghost use Rattle.std.specs.Prelude.{◌≡◌, ◌≤◌, ◌<◌, ◌^◌, ◌++◌, ◌+◌, ◌*◌, ◌-◌, length, map, nat_lt, drop, option_map};
ghost use Rattle.std.specs.List.{list_all};
ghost use Rattle.scenario.specs.declared.cause.Cause.TheVariants as cause;
ghost use Rattle.scenario.specs.Text.{is_hex};
ghost use Rattle.scenario.specs.Check.{KeptOr, fault, fault_of, lowest};
ghost use Rattle.scenario.specs.Reads.{texts_of, is_word, frame_checks, octets_checks, words_in_fields, all_octets, is_octets, field, word_limit};

use crate::cause::Cause;
use crate::fault::RecordFault;
use crate::row::{count, field_at};
use crate::text::{is_hex_digit, push_octets, read_word};
use csv::ByteRecord;
use link_params::Shape;

/// Adds the words of the fields after the first.
fn push_words(row: &ByteRecord, fields: u32, words: &mut Vec<u32>) -> Result<(), RecordFault>
    requires { fields ≡ length (texts_of row.now) }
    ensures { KeptOr
        (option_map (fault cause.Form) (lowest 1 (map is_word (drop 1 (texts_of row.now)))))
        words.new.items (words.old.items ++ words_in_fields (texts_of row.now)) result }
{
    for at in 1..fields {
        let Some(word) = read_word(field_at(row, at)) else {
            return Err(RecordFault::Bad(Cause::Form.at(at)));
        };
        if words.push(word).is_err() {
            return Err(RecordFault::NoMemory);
        }
    }
    Ok(())
}

/// The number of the first word that is not below the limit, counted from 1.
fn first_above(words: &[u32], limit: u64) -> Option<u32>
    requires { length words.now < 2 ^ 32 - 1 }
    ensures { result ≡ lowest 1 (map (λ w. nat_lt w limit) words.now) }
{
    let mut at = 1;
    for word in words {
        if u64::from(*word) >= limit {
            return Some(at);
        }
        at += 1;
    }
    None
}

/// Words are below this.
pub fn limit_of(shape: &Shape) -> u64
    ensures { result ≡ word_limit shape.now }
{
    1 << shape.word_bits()
}

/// Adds the words of a record `frame`.
pub fn read_frame(row: &ByteRecord, shape: &Shape, words: &mut Vec<u32>) -> Result<(), RecordFault>
    requires { length (texts_of row.now) < 2 ^ 32 }
    ensures { KeptOr (fault_of (length (texts_of row.now)) (frame_checks shape.now (texts_of row.now)))
        words.new.items (words.old.items ++ words_in_fields (texts_of row.now)) result }
{
    let fields = count(row);
    if fields != shape.frame_words() + 1 {
        return Err(RecordFault::Bad(Cause::FieldCount.at(fields)));
    }
    let before = words.as_slice().len();
    push_words(row, fields, words)?;
    match first_above(&words[before..], limit_of(shape)) {
        None => Ok(()),
        Some(at) => Err(RecordFault::Bad(Cause::Range.at(at))),
    }
}

fn are_hex_digits(text: &[u8]) -> bool
    ensures { result ≡ list_all is_hex text.now }
{
    for c in text {
        if !is_hex_digit(*c) {
            return false;
        }
    }
    true
}

/// Whether a field is so many octets, two digits each.
fn is_octets_text(text: &[u8], octets: u32) -> bool
    requires { octets ≤ 256 }
    ensures { result ≡ is_octets octets text.now }
{
    text.len() == 2 * octets as usize && are_hex_digits(text)
}

/// Adds the octets of a record `octets`.
pub fn read_octets(row: &ByteRecord, shape: &Shape, octets: &mut Vec<u8>) -> Result<(), RecordFault>
    requires { length (texts_of row.now) < 2 ^ 32 }
    ensures { KeptOr (fault_of (length (texts_of row.now)) (octets_checks shape.now (texts_of row.now)))
        octets.new.items (octets.old.items ++ all_octets (drop 1 (texts_of row.now))) result }
{
    let fields = count(row);
    if fields != shape.lanes() + 1 {
        return Err(RecordFault::Bad(Cause::FieldCount.at(fields)));
    }
    for at in 1..fields {
        let text = field_at(row, at);
        if !is_octets_text(text, shape.frame_octets()) {
            return Err(RecordFault::Bad(Cause::Form.at(at)));
        }
        if push_octets(text, octets).is_err() {
            return Err(RecordFault::NoMemory);
        }
    }
    Ok(())
}
