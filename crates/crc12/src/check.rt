//! The check, a payload at a time.
ghost use Rattle.std.specs.Prelude.{◌≡◌, ◌*◌, ◌^◌, ◌<◌, ℕ, Bool, List, [], ◌++◌};
ghost use Rattle.jesd_base.specs.Bits.{bits, value, zeros};
ghost use Rattle.crc12.specs.Crc.{crc, HasTaken};

use crate::table::TABLE;
use jesd_base::{bits_and_numbers, division};
use std::marker::Model;

/// The check of the scrambled payload bits that were pushed: their remainder, as a polynomial whose
/// first bit has the highest power, times x^12, by x^12 + x^9 + x^8 + x^3 + x^2 + x + 1
/// (JESD204C.1, "64b/66b link layer", cyclic redundancy check). A multiblock has 32 payloads.
#[derive(Clone, Copy, Debug)]
pub struct Crc12 {
    register: u16,
}

impl Model for Crc12 {
    ghost Value = { ℕ };

    ghost view = { λ s. s.register };

    ghost invariant = { λ s. s.register < 2 ^ 12 };

    ghost inverse = { λ n. record { register = n } };
}

impl Crc12 {
    /// A check that took nothing yet.
    pub fn new() -> Crc12
        ensures { HasTaken result [] }
    {
        Crc12 { register: 0 }
    }

    /// Takes the 64 bits of a payload, most significant bit first.
    pub fn push64(&mut self, payload: u64)
        ensures { (taken : List Bool) → HasTaken self.old taken
            → HasTaken self.new (taken ++ bits 64 payload) }
    {
        bits_and_numbers();
        division();
        // The check so far comes twelve bits wide before the bits of the payload.
        self.register = check_of(payload ^ (u64::from(self.register) << 52));
    }

    /// The check of what was taken so far, twelve bits.
    pub fn value(&self) -> u16
        ensures value { (taken : List Bool) → HasTaken self.now taken → result ≡ value (crc taken) }
        ensures below { result < 2 ^ 12 }
    {
        self.register
    }
}

// The check of the 64 bits of a word alone.
fn check_of(word: u64) -> u16
    ensures is { result ≡ value (crc (bits 64 word)) }
    ensures below { result < 2 ^ 12 }
{
    bits_and_numbers();
    division();
    let mut check = 0;
    for behind in 0..8 {
        let byte = (word >> (8 * behind)) % 256;
        check ^= entry(byte as u8, behind);
    }
    check
}

// The check of one byte with so many bytes of zeros behind it.
fn entry(byte: u8, behind: u32) -> u16
    requires { behind < 8 }
    ensures { result ≡ value (crc (bits 8 byte ++ zeros (8 * behind))) }
{
    TABLE[256 * behind as usize + byte as usize]
}
