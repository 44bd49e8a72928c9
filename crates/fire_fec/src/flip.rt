//! Bursts added to a payload.
ghost use Rattle.std.specs.Prelude.{◌≡◌, ◌*◌, ◌<◌, ◌≤◌, ◌++◌, length, take};
ghost use Rattle.jesd_base.specs.Bits.{bits, zeros};
ghost use Rattle.jesd_base.specs.Division.{add_bits};
ghost use Rattle.fire_fec.specs.Burst.{burst_added};
ghost use Rattle.fire_fec.specs.Corrects.{payload_bits};

use crate::word::MASK_BITS;

// Adds the nine bits of a mask at a place; those past the payload's end are lost.
pub(crate) fn add_burst(payload: &mut [u64; 32], start: u32, mask: u16)
    requires { (start < 2074) × (mask < 512) }
    ensures { payload_bits payload.new ≡ burst_added (payload_bits payload.old) start mask }
{
    let block = start as usize / 64;
    let both = u128::from(mask) << (128 - MASK_BITS - start % 64);
    add_to_block(payload, block, (both >> 64) as u64);
    add_to_block(payload, block + 1, (both % (1 << 64)) as u64);
}

// Adds bits to a block, if the payload has it.
fn add_to_block(payload: &mut [u64; 32], block: usize, added: u64)
    requires { block ≤ 33 }
    ensures { let flips = zeros (64 * block) ++ bits 64 added in
        payload_bits payload.new ≡ take (length (payload_bits payload.old)) (add_bits (payload_bits payload.old) flips) }
{
    if block < 32 {
        payload[block] ^= added;
    }
}
