//! The characters of a lane that is locked.
ghost use Rattle.std.specs.Prelude.{◌≡◌, ◌<◌};
ghost use Rattle.jesd_base.specs.Bits.{bits as bits_of, value};
ghost use Rattle.code_8b10b.specs.Code.{after};
ghost use Rattle.code_8b10b.specs.Reads.{reading};
ghost use Rattle.lane_b.specs.kept.Across.{ten_across};

use code_8b10b::{Lock, Rd, Reading, code_laws, decode};
use jesd_base::bits_and_numbers;

/// Where the characters of a locked lane end, and the disparity before the next one.
#[derive(Drop)]
pub struct Chars {
    // How many bits came after the last whole character.
    rest: u8,
    // The ten bits of the last tick.
    last: u16,
    rd: Rd,
    ghost few: { rest < 10 },
    ghost ten_bits: { last < 1024 },
}

impl Chars {
    /// After the four commas of a lock that ended in these ten bits.
    pub fn after(lock: &Lock, bits: u16) -> Chars
        requires rest { lock.now.rest < 10 }
        requires bits { bits < 1024 }
        ensures rest { result.rest ≡ lock.now.rest }
        ensures last { result.last ≡ bits }
        ensures rd { result.rd ≡ lock.now.rd }
    {
        Chars {
            rest: lock.rest,
            last: bits,
            rd: lock.rd,
        }
    }

    /// How many bits came after the last whole character.
    pub fn rest(&self) -> u8
        ensures same { result ≡ self.now.rest }
        ensures few { result < 10 }
    {
        self.rest
    }

    /// The character that ends in these ten bits.
    pub fn next(&mut self, bits: u16) -> Reading
        requires bits { bits < 1024 }
        ensures reading { result ≡ reading self.old.rd (value (ten_across self.old.rest (bits_of 10 self.old.last) (bits_of 10 bits))) }
        ensures rest { self.new.rest ≡ self.old.rest }
        ensures last { self.new.last ≡ bits }
        ensures rd { self.new.rd ≡ after self.old.rd (value (ten_across self.old.rest (bits_of 10 self.old.last) (bits_of 10 bits))) }
    {
        bits_and_numbers();
        code_laws();
        let window = u32::from(self.last) << 10 | u32::from(bits);
        let (reading, rd) = decode(self.rd, (window >> self.rest & 0x3FF) as u16);
        self.last = bits;
        self.rd = rd;
        reading
    }
}
