//! Blocks as numbers.
ghost use Rattle.std.specs.Prelude.{◌≡◌, ◌^◌, ◌<◌, drop};
ghost use Rattle.jesd_base.specs.Bits.{bits, value};
ghost use Rattle.block_66b.specs.Blocks.{header, packed};

use crate::sync_bit::SyncBit;
use jesd_base::bits_and_numbers;

// What the headers 00, 01, 10 and 11 carry.
const HEADERS: [SyncBit; 4] = [SyncBit::Bad, SyncBit::One, SyncBit::Zero, SyncBit::Bad];

/// The block with this sync bit and this payload.
pub fn pack(sync: bool, payload: u64) -> u128
    ensures block { result ≡ packed sync payload }
    ensures below { result < 2 ^ 66 }
{
    bits_and_numbers();
    let header: u128 = if sync { 0b01 } else { 0b10 };
    (header << 64) | u128::from(payload)
}

/// The sync bit of a block, and its payload, which is given where the header is bad too.
pub fn unpack(block: u128) -> (SyncBit, u64)
    requires { block < 2 ^ 66 }
    ensures header { result.0 ≡ header (bits 66 block) }
    ensures payload { result.1 ≡ value (drop 2 (bits 66 block)) }
{
    bits_and_numbers();
    let payload = (block & u128::from(u64::MAX)) as u64;
    (sync_bit(block), payload)
}

// The sync bit of a block.
fn sync_bit(block: u128) -> SyncBit
    requires { block < 2 ^ 66 }
    ensures { result ≡ header (bits 66 block) }
{
    HEADERS[(block >> 64) as usize]
}
