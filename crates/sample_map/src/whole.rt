//! Words of whole octets, one after another.
ghost use Rattle.std.specs.Prelude.{◌≡◌, ℕ, ◌+◌, ◌-◌, ◌*◌, ◌/◌, ◌%◌, ◌^◌, ◌<◌, ◌≤◌, length, slice_index, slice_set};

/// Writes the two octets of each word, most significant first, with so many tail bits behind it.
pub(crate) fn write_pairs(words: &[u32], tail: u32, out: &mut [u8])
    requires tail { tail ≤ 16 }
    requires below { (r : ℕ) → r < length words.now → slice_index words.now r < 2 ^ (16 - tail) }
    requires octets { length out.old ≡ 2 * length words.now }
    ensures first { (r : ℕ) → r < length words.now
        → slice_index out.new (2 * r) ≡ slice_index words.now r * 2 ^ tail / 256 }
    ensures second { (r : ℕ) → r < length words.now
        → slice_index out.new (2 * r + 1) ≡ slice_index words.now r * 2 ^ tail % 256 }
{
    // a word alone needs no loop
    if words.len() == 1 {
        write_pair(words[0], tail, out, 0);
        return;
    }
    for (r, word) in words.iter().enumerate() {
        write_pair(*word, tail, out, r);
    }
}

// Writes the two octets of word r.
#[inline(always)]
fn write_pair(word: u32, tail: u32, out: &mut [u8], r: usize)
    requires tail { tail ≤ 16 }
    requires below { word < 2 ^ (16 - tail) }
    requires within { 2 * r + 1 < length out.old }
    ensures { out.new ≡ slice_set (slice_set out.old (2 * r) (word * 2 ^ tail / 256)) (2 * r + 1)
        (word * 2 ^ tail % 256) }
{
    let bits = word << tail;
    out[2 * r] = (bits >> 8) as u8;
    out[2 * r + 1] = (bits % 256) as u8;
}

/// Reads each word from its two octets, without so many tail bits.
pub(crate) fn read_pairs(octets: &[u8], tail: u32, words: &mut [u32])
    requires tail { tail ≤ 16 }
    requires octets { length octets.now ≡ 2 * length words.old }
    ensures { (r : ℕ) → r < length words.new → slice_index words.new r
        ≡ (slice_index octets.now (2 * r) * 256 + slice_index octets.now (2 * r + 1)) / 2 ^ tail }
{
    // a word alone needs no loop
    if words.len() == 1 {
        words[0] = read_pair(octets, tail, 0);
        return;
    }
    for (r, word) in words.iter_mut().enumerate() {
        *word = read_pair(octets, tail, r);
    }
}

// Reads word r from its two octets.
fn read_pair(octets: &[u8], tail: u32, r: usize) -> u32
    requires tail { tail ≤ 16 }
    requires within { 2 * r + 1 < length octets.now }
    ensures { result ≡ (slice_index octets.now (2 * r) * 256 + slice_index octets.now (2 * r + 1))
        / 2 ^ tail }
{
    let bits = u32::from(octets[2 * r]) * 256 + u32::from(octets[2 * r + 1]);
    bits >> tail
}

/// Writes the octet of each word, with so many tail bits behind the word.
pub(crate) fn write_singles(words: &[u32], tail: u32, out: &mut [u8])
    requires tail { tail ≤ 8 }
    requires below { (r : ℕ) → r < length words.now → slice_index words.now r < 2 ^ (8 - tail) }
    requires octets { length out.old ≡ length words.now }
    ensures { (r : ℕ) → r < length words.now
        → slice_index out.new r ≡ slice_index words.now r * 2 ^ tail }
{
    for (r, word) in words.iter().enumerate() {
        out[r] = (*word << tail) as u8;
    }
}

/// Reads each word from its octet, without so many tail bits.
pub(crate) fn read_singles(octets: &[u8], tail: u32, words: &mut [u32])
    requires tail { tail ≤ 8 }
    requires octets { length octets.now ≡ length words.old }
    ensures { (r : ℕ) → r < length words.new
        → slice_index words.new r ≡ slice_index octets.now r / 2 ^ tail }
{
    for (r, word) in words.iter_mut().enumerate() {
        *word = u32::from(octets[r]) >> tail;
    }
}
