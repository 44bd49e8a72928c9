//! The remainder of payload bits, a block at a time by tables of octets.
ghost use Rattle.std.specs.Prelude.{◌≡◌, ◌<◌, ◌^◌, Bool, List, ◌++◌};
ghost use Rattle.jesd_base.specs.Bits.{bits, value};
ghost use Rattle.fire_fec.specs.Burst.{parity};
ghost use Rattle.fire_fec.specs.Corrects.{payload_bits};
ghost use Rattle.fire_fec.specs.kept.Taking.{block_taken};

use crate::tables::TABLES;
use crate::word::CHECK_BITS;

/// The check of a payload of 32 blocks: the remainder of its 2,048 bits times x^26 by the divisor
/// x^26 + x^21 + x^17 + x^9 + x^4 + 1 (JESD204C.1, 64b/66b link layer, forward error correction).
///
/// The first block's bit 63 has the highest power. The check has 26 bits, of which bit 25 has the
/// highest power.
pub fn parity(payload: &[u64; 32]) -> u32
    ensures remainder { result ≡ value (parity (payload_bits payload.now)) }
    ensures below { result < 2 ^ 26 }
{
    let mut rest = 0;
    for block in payload {
        rest = after_block(rest, *block);
    }
    rest
}

// The remainder of `rest` times x^64 plus the bits of a block times x^26.
pub(crate) fn after_block(rest: u32, block: u64) -> u32
    requires { rest < 2 ^ 26 }
    ensures below { result < 2 ^ 26 }
    ensures remainder { result ≡ block_taken rest block }
    ensures parity { (before : List Bool) → rest ≡ value (parity before)
        → result ≡ value (parity (before ++ bits 64 block)) }
{
    // times x^26 the block's first bits have the powers that the remainder has times x^64
    let sum = (u64::from(rest) << (64 - CHECK_BITS)) ^ block;
    let mut after = 0;
    for (place, octet) in sum.to_be_bytes().iter().enumerate() {
        after ^= TABLES[place][*octet as usize];
    }
    after
}
