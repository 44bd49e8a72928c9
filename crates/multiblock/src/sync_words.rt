//! Making a sync word.
ghost use Rattle.std.specs.Prelude.{◌≡◌, ◌≢◌, ◌+◌, ◌^◌, ◌<◌, ◌≤◌, ◌++◌, ℕ};
ghost use Rattle.jesd_base.specs.Bits.{bits};
ghost use Rattle.multiblock.specs.SyncWords.{sync_word};
ghost use Rattle.multiblock.specs.laws.SyncLaws.{ReadsBack};

use jesd_base::bits_and_numbers;
use link_params::Mode;

/// The five bits that each sync word ends in.
pub(crate) const PILOT: u32 = 0b00001;

/// The sync word that carries a check, command bits and the end bit; bit 31 is sync bit 0, which is sent
/// first (JESD204C.1, "64b/66b link layer", sync word).
pub fn sync_word(mode: Mode, check: u32, cmd: u8, end: bool) -> u32
    requires mode { mode ≢ Mode.B }
    requires crc { mode ≡ Mode.CCrc → (check < 2 ^ 12) × (cmd < 128) }
    requires fec { mode ≡ Mode.CFec → (check < 2 ^ 26) × (cmd ≡ 0) }
    ensures { bits 32 result ≡ sync_word mode check cmd end }
{
    match mode {
        Mode::CFec => fec_word(check, end),
        _ => crc_word(check, cmd, end),
    }
}

fn crc_word(check: u32, cmd: u8, end: bool) -> u32
    ensures { bits 32 result ≡ sync_word Mode.CCrc check cmd end }
{
    let cmd = u32::from(cmd);
    let word = append(check >> 9, 1, 1);
    let word = append(word, 3, check >> 6);
    let word = append(word, 1, 1);
    let word = append(word, 3, check >> 3);
    let word = append(word, 1, 1);
    let word = append(word, 3, check);
    let word = append(word, 1, 1);
    let word = append(word, 3, cmd >> 4);
    let word = append(word, 1, 1);
    let word = append(word, 1, cmd >> 3);
    let word = append(word, 1, 1);
    let word = append(word, 1, u32::from(end));
    let word = append(word, 1, 1);
    let word = append(word, 3, cmd);
    append(word, 5, PILOT)
}

fn fec_word(check: u32, end: bool) -> u32
    ensures { (cmd : ℕ) → bits 32 result ≡ sync_word Mode.CFec check cmd end }
{
    let word = append(check >> 4, 1, u32::from(end));
    let word = append(word, 4, check);
    append(word, 5, PILOT)
}

/// The low `size` bits of `part` behind the bits of `word`, whose first bits go.
pub(crate) fn append(word: u32, size: u32, part: u32) -> u32
    requires { size < 32 }
    ensures { (n : ℕ) → n + size ≤ 32 → bits (n + size) result ≡ bits n word ++ bits size part }
{
    bits_and_numbers();
    (word << size) | (part & ((1 << size) - 1))
}

/// What is read in a sync word is what it was made of.
pub fn reads_back()
    ensures { ReadsBack }
{
    bits_and_numbers();
}
