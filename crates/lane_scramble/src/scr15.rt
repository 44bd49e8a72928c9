//! The scrambler of 8b/10b lanes.
ghost use Rattle.std.specs.Prelude.{◌≡◌, Bool, List, [], ◌++◌, reverse, take};
ghost use Rattle.jesd_base.specs.Bits.{bits};
ghost use Rattle.lane_scramble.specs.Scrambling.{scrambled, descrambled, scrambled15, descrambled15};
ghost use Rattle.lane_scramble.specs.kept.Scramblers.{HasScrambled15, HasDescrambled15};

use std::marker::Model;

/// Scrambles or descrambles octets, most significant bit first: each bit of the scrambled stream is
/// the bit of the plain one plus, modulo 2, those that came 14 and 15 places before it in the
/// scrambled stream (JESD204B.01, "Scrambling").
///
/// One value serves one direction of one lane: it keeps the last fifteen scrambled bits, and both
/// calls change them.
#[derive(Drop)]
pub struct Scr15 {
    // The latest bit is the lowest; the highest of the sixteen doesn't matter.
    last: u16,
}

impl Model for Scr15 {
    ghost Value = { List Bool };

    ghost view = { λ s. reverse (bits 15 s.last) };
}

impl Scr15 {
    /// A scrambler that took nothing yet. The fifteen earlier bits are 111111110000000, oldest first.
    pub fn new() -> Scr15
        ensures scrambled { HasScrambled15 result [] }
        ensures descrambled { HasDescrambled15 result [] }
    {
        Scr15 {
            last: 0b111_1111_1000_0000,
        }
    }

    /// The scrambled octet of the plain octet `x`, on a value that was only scrambled with so far.
    pub fn scramble(&mut self, x: u8) -> u8
        ensures stands { (taken : List Bool) → HasScrambled15 self.old taken
            → HasScrambled15 self.new (taken ++ bits 8 x) }
        ensures answer { (taken : List Bool) → HasScrambled15 self.old taken
            → scrambled15 (taken ++ bits 8 x) ≡ scrambled15 taken ++ bits 8 result }
    {
        let y = with_taps(self.last, x);
        self.last = after(self.last, y);
        y
    }

    /// The plain octet of the scrambled octet `y`, on a value that was only descrambled with so far.
    /// Once fifteen bits came, it no longer matters what the earlier ones were taken to be.
    pub fn descramble(&mut self, y: u8) -> u8
        ensures stands { (taken : List Bool) → HasDescrambled15 self.old taken
            → HasDescrambled15 self.new (taken ++ bits 8 y) }
        ensures answer { (taken : List Bool) → HasDescrambled15 self.old taken
            → descrambled15 (taken ++ bits 8 y) ≡ descrambled15 taken ++ bits 8 result }
    {
        let x = with_taps(self.last, y);
        self.last = after(self.last, y);
        x
    }
}

// An octet with the two taps of each bit added. No tap reaches into the octet itself, so it is one
// sum both ways.
fn with_taps(last: u16, octet: u8) -> u8
    ensures scrambled { scrambled 14 15 (reverse (bits 15 last)) (bits 8 octet) ≡ bits 8 result }
    ensures descrambled { descrambled 14 15 (reverse (bits 15 last)) (bits 8 octet) ≡ bits 8 result }
{
    octet ^ (last >> 6 & 0xff) as u8 ^ (last >> 7 & 0xff) as u8
}

// The last fifteen bits after an octet.
fn after(last: u16, octet: u8) -> u16
    ensures { reverse (bits 15 result) ≡ take 15 (reverse (bits 8 octet) ++ reverse (bits 15 last)) }
{
    (last << 8) | u16::from(octet)
}
