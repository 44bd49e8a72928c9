//! The scrambler of 64b/66b lanes.
ghost use Rattle.std.specs.Prelude.{◌≡◌, Bool, List, [], ◌++◌, reverse};
ghost use Rattle.jesd_base.specs.Bits.{bits};
ghost use Rattle.lane_scramble.specs.Scrambling.{scrambled, descrambled, scrambled58, descrambled58};
ghost use Rattle.lane_scramble.specs.kept.Scramblers.{HasScrambled58, HasDescrambled58};

use std::marker::Model;

/// Scrambles or descrambles the 64-bit payloads of blocks, most significant bit first: each bit of the
/// scrambled stream is the bit of the plain one plus, modulo 2, those that came 39 and 58 places
/// before it in the scrambled stream (JESD204C.1, "64b/66b link layer", scrambling).
///
/// One value serves one direction of one lane: it keeps the last scrambled bits, and both calls change
/// them.
#[derive(Drop)]
pub struct Scr58 {
    // The scrambled word before. Its lowest bit is the latest; only the low 58 matter.
    before: u64,
}

impl Model for Scr58 {
    ghost Value = { List Bool };

    ghost view = { λ s. reverse (bits 58 s.before) };
}

impl Scr58 {
    /// A scrambler that took nothing yet. The fifty-eight earlier bits are all 1.
    pub fn new() -> Scr58
        ensures scrambled { HasScrambled58 result [] }
        ensures descrambled { HasDescrambled58 result [] }
    {
        Scr58 { before: u64::MAX }
    }

    /// The scrambled payload of the plain payload `x`, on a value that was only scrambled with so far.
    pub fn scramble(&mut self, x: u64) -> u64
        ensures stands { (taken : List Bool) → HasScrambled58 self.old taken
            → HasScrambled58 self.new (taken ++ bits 64 x) }
        ensures answer { (taken : List Bool) → HasScrambled58 self.old taken
            → scrambled58 (taken ++ bits 64 x) ≡ scrambled58 taken ++ bits 64 result }
    {
        let y = scrambled_word(self.before, x);
        self.before = y;
        y
    }

    /// The plain payload of the scrambled payload `y`, on a value that was only descrambled with so far.
    /// Once fifty-eight bits came, it no longer matters what the earlier ones were taken to be.
    pub fn descramble(&mut self, y: u64) -> u64
        ensures stands { (taken : List Bool) → HasDescrambled58 self.old taken
            → HasDescrambled58 self.new (taken ++ bits 64 y) }
        ensures answer { (taken : List Bool) → HasDescrambled58 self.old taken
            → descrambled58 (taken ++ bits 64 y) ≡ descrambled58 taken ++ bits 64 result }
    {
        let x = descrambled_word(self.before, y);
        self.before = y;
        x
    }
}

// First the taps in the word before, then those in the word itself. The second sum may read `t` for the
// result: the bits that it reads are among the first 25, and these have no tap in the word itself.
fn scrambled_word(before: u64, x: u64) -> u64
    ensures { scrambled 39 58 (reverse (bits 58 before)) (bits 64 x) ≡ bits 64 result }
{
    let t = x ^ (before << 25) ^ (before << 6);
    t ^ (t >> 39) ^ (t >> 58)
}

fn descrambled_word(before: u64, y: u64) -> u64
    ensures { descrambled 39 58 (reverse (bits 58 before)) (bits 64 y) ≡ bits 64 result }
{
    y ^ (y >> 39) ^ (y >> 58) ^ (before << 25) ^ (before << 6)
}
