//! The code, both ways: one access to a table for each character.
ghost use Rattle.std.specs.Prelude.{◌≡◌, ◌<◌, ℕ, option_map};
ghost use Rattle.code_8b10b.specs.Code.{after, spelling, IsReading};
ghost use Rattle.code_8b10b.specs.kept.Entries.{disparity_in, reading_in, spelled_by};
ghost use Rattle.code_8b10b.specs.Reads.{reading};

use crate::character::{Char, Rd, Reading};
use crate::tables::{READINGS_MINUS, READINGS_PLUS, SPELLINGS_MINUS, SPELLINGS_PLUS};

/// The ten bits of a character sent at the disparity `rd`, and the disparity after them (IEEE 802.3
/// tables 36-1 and 36-2). Bit 9 is bit a, sent first. `None` for a control octet that is not one of the twelve.
pub fn encode(rd: Rd, c: Char) -> Option<(u16, Rd)>
    ensures { result ≡ option_map (λ w. (w, after rd w)) (spelling rd c) }
{
    let entry = spelling_entry(rd, c);
    if entry == 0 {
        return None;
    }
    Some((
        entry % 1024,
        if entry < 1024 { Rd::Minus } else { Rd::Plus },
    ))
}

/// What ten bits read as at the disparity `rd`, and the disparity after them, which follows from the bits
/// whatever they are (IEEE 802.3 clause 36.2.4, "Checking the validity of received code-groups"). Bit 9 of
/// `bits` came first.
pub fn decode(rd: Rd, bits: u16) -> (Reading, Rd)
    requires { bits < 1024 }
    ensures reading { IsReading rd bits result.0 }
    ensures disparity { result.1 ≡ after rd bits }
{
    let entry = reading_entry(rd, bits);
    (reading_of(entry), disparity_of(entry))
}

// The entry of a character's spelling.
fn spelling_entry(rd: Rd, c: Char) -> u16
    ensures { spelled_by result ≡ option_map (λ w. (w, after rd w)) (spelling rd c) }
{
    let index = match c {
        Char::Data(octet) => octet as usize,
        Char::Control(octet) => 256 + octet as usize,
    };
    match rd {
        Rd::Minus => SPELLINGS_MINUS[index],
        Rd::Plus => SPELLINGS_PLUS[index],
    }
}

// The entry of a word's reading.
fn reading_entry(rd: Rd, word: u16) -> u16
    requires { word < 1024 }
    ensures reading { reading_in result ≡ reading rd word }
    ensures disparity { disparity_in result ≡ after rd word }
{
    match rd {
        Rd::Minus => READINGS_MINUS[word as usize],
        Rd::Plus => READINGS_PLUS[word as usize],
    }
}

fn reading_of(entry: u16) -> Reading
    ensures { result ≡ reading_in entry }
{
    let octet = (entry % 256) as u8;
    let c = if entry % 512 < 256 {
        Char::Data(octet)
    } else {
        Char::Control(octet)
    };
    match entry / 512 % 4 {
        0 => Reading::Char(c),
        1 => Reading::Disparity(c),
        _ => Reading::Invalid,
    }
}

fn disparity_of(entry: u16) -> Rd
    ensures { result ≡ disparity_in entry }
{
    if entry < 2048 { Rd::Minus } else { Rd::Plus }
}
