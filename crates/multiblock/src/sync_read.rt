//! What a receiver reads in a sync word.
ghost use Rattle.std.specs.Prelude.{◌≡◌, ◌≢◌, ◌<◌, ◌^◌, Bool, true, List, [], ◌∷◌, drop};
ghost use Rattle.jesd_base.specs.Bits.{bits, value};
ghost use Rattle.multiblock.specs.SyncWords.{sync_form, carriers, is_check, is_cmd, is_end, same_bits, pilot, read_sync};

use crate::sync_words::{PILOT, append};
use jesd_base::bits_and_numbers;
use link_params::Mode;

/// What a sync word carries (JESD204C.1, "64b/66b link layer", sync word).
#[derive(Clone, Copy, Debug, PartialEq, Eq)]
pub struct SyncRead {
    /// The check of the multiblock before: 12 bits of CRC, or 26 bits of FEC.
    pub check: u32,
    /// The 7 command bits; 0 under FEC, which has none.
    pub cmd: u8,
    /// The multiblock is the last of its extended multiblock.
    pub end: bool,
    /// The last five bits are 00001.
    pub pilot: bool,
}

/// What a sync word carries; bit 31 is sync bit 0. The bits that are always 1 are not looked at.
pub fn read_sync(mode: Mode, word: u32) -> SyncRead
    requires { mode ≢ Mode.B }
    ensures read { result ≡ read_sync mode (bits 32 word) }
    ensures below { result.check < 2 ^ 26 }
{
    let end = has_end(word);
    let pilot = has_pilot(word);
    match mode {
        Mode::CFec => SyncRead {
            check: fec_check(word),
            cmd: 0,
            end,
            pilot,
        },
        _ => SyncRead {
            check: crc_check(word),
            cmd: crc_cmd(word),
            end,
            pilot,
        },
    }
}

fn crc_check(word: u32) -> u32
    ensures check { result ≡ value (carriers is_check (sync_form Mode.CCrc) (bits 32 word)) }
    ensures below { result < 2 ^ 12 }
{
    bits_and_numbers();
    let high = append(word >> 29, 3, word >> 25);
    let low = append(word >> 21, 3, word >> 17);
    append(high, 6, low) & 0xfff
}

fn crc_cmd(word: u32) -> u8
    ensures { result ≡ value (carriers is_cmd (sync_form Mode.CCrc) (bits 32 word)) }
{
    bits_and_numbers();
    let high = append(word >> 13, 1, word >> 11);
    (append(high, 3, word >> 5) & 0x7f) as u8
}

fn fec_check(word: u32) -> u32
    ensures check { result ≡ value (carriers is_check (sync_form Mode.CFec) (bits 32 word)) }
    ensures below { result < 2 ^ 26 }
{
    bits_and_numbers();
    append(word >> 10, 4, word >> 5) & 0x3ff_ffff
}

fn has_end(word: u32) -> bool
    ensures crc { result ≡ same_bits (carriers is_end (sync_form Mode.CCrc) (bits 32 word)) (true ∷ []) }
    ensures fec { result ≡ same_bits (carriers is_end (sync_form Mode.CFec) (bits 32 word)) (true ∷ []) }
{
    (word >> 9) & 1 == 1
}

fn has_pilot(word: u32) -> bool
    ensures { result ≡ same_bits (drop 27 (bits 32 word)) pilot }
{
    bits_and_numbers();
    word & 0x1f == PILOT
}
