//! The written forms of fields.
ghost use Rattle.std.specs.Prelude.{◌≡◌, ◌≤◌, ◌<◌, ◌==◌, ◌||◌, ◌+◌, ◌++◌, length, OnOk, true, nat_le, ◌&&◌, ◌^◌, ◌*◌, IfSome};
ghost use Rattle.std.specs.List.{list_all};
ghost use Rattle.std.specs.Char.{digit_value};
ghost use Rattle.scenario.specs.Text.{strip_start, strip_end, number, signed, word, is_blank, is_hex, hex_octets, value_after};

use std::alloc::AllocError;

fn is_blank_byte(c: u8) -> bool
    ensures { result ≡ is_blank c }
{
    c == b' ' || c == b'\t'
}

fn without_start(text: &[u8]) -> &[u8]
    ensures { result.now ≡ strip_start text.now }
{
    let mut rest = text;
    while let [first, more @ ..] = rest {
        if !is_blank_byte(*first) {
            break;
        }
        rest = more;
    }
    rest
}

fn without_end(text: &[u8]) -> &[u8]
    ensures { result.now ≡ strip_end text.now }
{
    let mut rest = text;
    while let [more @ .., last] = rest {
        if !is_blank_byte(*last) {
            break;
        }
        rest = more;
    }
    rest
}

/// A field with no blanks at its ends.
pub fn bare(text: &[u8]) -> &[u8]
    ensures { result.now ≡ strip_end (strip_start text.now) }
{
    without_end(without_start(text))
}

/// Whether a byte is a hexadecimal digit of either case.
pub fn is_hex_digit(c: u8) -> bool
    ensures { result ≡ is_hex c }
{
    char::from(c).is_digit(16)
}

/// The number that digits write in a radix, if all are digits.
fn value_of(text: &[u8], radix: u32) -> Option<u64>
    requires low { 2 ≤ radix }
    requires high { radix ≤ 16 }
    requires short { length text.now ≤ 10 }
    ensures value { result ≡ value_after radix 0 text.now }
    ensures small { IfSome result (λ n. n < 16 ^ length text.now) }
{
    let mut value: u64 = 0;
    for c in text {
        match char::from(*c).to_digit(radix) {
            None => return None,
            Some(digit) => value = value * u64::from(radix) + u64::from(digit),
        }
    }
    Some(value)
}

/// A decimal number of at most ten digits.
pub fn read_number(text: &[u8]) -> Option<u32>
    ensures { result ≡ number text.now }
{
    if text.is_empty() || text.len() > 10 {
        return None;
    }
    let value = value_of(text, 10)?;
    if value > 4294967295 {
        return None;
    }
    Some(value as u32)
}

/// A decimal number of at most ten digits, with at most one minus before them.
pub fn read_signed(text: &[u8]) -> Option<i64>
    ensures { result ≡ signed text.now }
{
    match text {
        [b'-', digits @ ..] => match read_number(digits) {
            Some(number) => Some(-i64::from(number)),
            None => None,
        },
        _ => match read_number(text) {
            Some(number) => Some(i64::from(number)),
            None => None,
        },
    }
}

/// A word of at most eight hexadecimal digits.
pub fn read_word(text: &[u8]) -> Option<u32>
    ensures { result ≡ word text.now }
{
    if text.is_empty() || text.len() > 8 {
        return None;
    }
    let value = value_of(text, 16)?;
    Some(value as u32)
}

fn digit(c: u8) -> u8
    requires { is_hex c ≡ true }
    ensures value { result ≡ digit_value c }
    ensures small { result < 16 }
{
    char::from(c).to_digit(16).unwrap_or(0) as u8
}

/// Adds the octets that pairs of digits write.
pub fn push_octets(text: &[u8], octets: &mut Vec<u8>) -> Result<(), AllocError>
    requires { list_all is_hex text.now ≡ true }
    ensures { OnOk result (octets.new.items ≡ octets.old.items ++ hex_octets text.now) }
{
    let mut rest = text;
    while let [high, low, more @ ..] = rest {
        octets.push(16 * digit(*high) + digit(*low))?;
        rest = more;
    }
    Ok(())
}
