//! Words in octets, group by group.
ghost use Rattle.std.specs.Prelude.{◌≡◌, ℕ, ◌+◌, ◌-◌, ◌*◌, ◌/◌, ◌%◌, ◌^◌, ◌<◌, ◌≤◌, None, length, slice_index};
ghost use Rattle.std.specs.Int.{bit_at};
ghost use Rattle.link_params.specs.Laws.{broken_law};
ghost use Rattle.sample_map.specs.kept.Groups.{HasOctet, HasWord, group_bit, grouping};

use crate::cursor::Cursor;
use crate::whole::{read_pairs, read_singles, write_pairs, write_singles};
use link_params::Shape;

/// The sizes of a group: a lane, or the whole frame with HD. Words and octets of a group, bits of
/// a word, and how many of these carry sample and control. Where words of whole octets fill each
/// group, `word_octets` are the octets of a word; otherwise it is 0.
#[derive(Clone, Copy)]
pub(crate) struct Grid {
    words: u32,
    octets: u32,
    width: u32,
    used: u32,
    word_octets: u32,
    ghost words_some: { 0 < words },
    ghost words_few: { words ≤ 8192 },
    ghost octets_some: { 0 < octets },
    ghost octets_few: { octets ≤ 8192 },
    ghost width_few: { width ≤ 32 },
    ghost used_some: { 0 < used },
    ghost used_fit: { used ≤ width },
    ghost words_fit: { words * width ≤ 8 * octets },
    ghost whole: { 0 < word_octets → (width ≡ 8 * word_octets) × (octets ≡ word_octets * words) },
}

/// The octets of a word where words of whole octets fill a group, otherwise 0.
fn whole_octets(words: u32, octets: u32, width: u32) -> u32
    requires words { words ≤ 8192 }
    requires width { width ≤ 32 }
    ensures { 0 < result → (width ≡ 8 * result) × (octets ≡ result * words) }
{
    let of_word = width / 8;
    if width % 8 == 0 && octets == of_word * words {
        of_word
    } else {
        0
    }
}

impl Grid {
    ghost use Rattle.sample_map.specs.kept.Cursors.{Stands};
    ghost use Rattle.sample_map.specs.kept.Grids.{sizes};

    /// The groups of a shape.
    pub(crate) fn of(shape: &Shape) -> Grid
        ensures groups { sizes result ≡ grouping shape.now }
        ensures legal { broken_law shape.now ≡ None }
    {
        let params = shape.params();
        let (lanes, words, octets) = (shape.lanes(), shape.frame_words(), shape.frame_octets());
        let (width, used) = (params.np, shape.word_bits());
        if params.hd {
            Grid {
                words,
                octets: lanes * octets,
                width,
                used,
                word_octets: whole_octets(words, lanes * octets, width),
            }
        } else {
            Grid {
                words: words / lanes,
                octets,
                width,
                used,
                word_octets: whole_octets(words / lanes, octets, width),
            }
        }
    }

    /// The bits of word i of a group, tail bits 0; 0 behind the group's words.
    fn word_at(&self, words: &[u32], group: usize, i: u32) -> u64
        requires group { (group + 1) * self.now.words ≤ length words.now }
        requires below { (r : ℕ) → r < length words.now
            → slice_index words.now r < 2 ^ self.now.used }
        ensures below { result < 2 ^ self.now.width }
        ensures bits { (b : ℕ) → b < self.now.width → bit_at result (self.now.width - 1 - b)
            ≡ group_bit (sizes self.now) words.now group (i * self.now.width + b) }
    {
        if i < self.words {
            u64::from(words[group * self.words as usize + i as usize]) << (self.width - self.used)
        } else {
            0
        }
    }

    /// The octet at a cursor, and the cursor behind it.
    fn octet_at(&self, words: &[u32], cursor: Cursor) -> (u8, Cursor)
        requires holds { Stands (sizes self.now) words.now cursor }
        requires group { (cursor.group + 1) * self.now.words ≤ length words.now }
        requires below { (r : ℕ) → r < length words.now
            → slice_index words.now r < 2 ^ self.now.used }
        ensures below { result.0 < 256 }
        ensures octet { (i : ℕ) → i < 8 → bit_at result.0 (7 - i) ≡ group_bit (sizes self.now) words.now cursor.group (8 * cursor.place + i) }
        ensures holds { Stands (sizes self.now) words.now result.1 }
        ensures next { result.1.group * self.now.octets + result.1.place ≡ cursor.group * self.now.octets + cursor.place + 1 }
    {
        let Cursor {
            group,
            place,
            mut bits,
            mut have,
            mut next,
        } = cursor;
        'gathering: while have < 8 {
            bits = (bits << self.width) + self.word_at(words, group, next);
            have += self.width;
            next += 1;
        }
        have -= 8;
        let octet = ((bits >> have) % 256) as u8;
        if place + 1 == self.octets {
            return (octet, Cursor::start(group + 1));
        }
        let behind = Cursor {
            group,
            place: place + 1,
            bits: bits % (1 << have),
            have,
            next,
        };
        (octet, behind)
    }

    /// Word r of all groups.
    fn word_from(&self, octets: &[u8], r: usize) -> u32
        requires within { (r / self.now.words + 1) * self.now.octets ≤ length octets.now }
        ensures below { result < 2 ^ self.now.used }
        ensures bits { HasWord (sizes self.now) octets.now r result }
    {
        let first = (r % self.words as usize) * self.width as usize;
        let mut at = r / self.words as usize * self.octets as usize + first / 8;
        let due = (first % 8) as u32 + self.used;
        let mut bits: u64 = 0;
        let mut have = 0;
        'gathering: while have < due {
            bits = (bits << 8) + u64::from(octets[at]);
            have += 8;
            at += 1;
        }
        ((bits >> (have - due)) % (1 << self.used)) as u32
    }

    /// Writes the octets of all groups, each from the words that it spans.
    #[inline(never)]
    fn gather_octets(&self, words: &[u32], out: &mut [u8])
        requires within { (k : ℕ) → k < length out.old
            → (k / self.now.octets + 1) * self.now.words ≤ length words.now }
        requires below { (r : ℕ) → r < length words.now
            → slice_index words.now r < 2 ^ self.now.used }
        ensures below { (k : ℕ) → k < length out.new → slice_index out.new k < 256 }
        ensures octets { (k : ℕ) → k < length out.new
            → HasOctet (sizes self.now) words.now k (slice_index out.new k) }
    {
        let mut cursor = Cursor::start(0);
        for octet in out.iter_mut() {
            let (value, behind) = self.octet_at(words, cursor);
            *octet = value;
            cursor = behind;
        }
    }

    /// Writes the words of all groups, each from the octets that it spans.
    #[inline(never)]
    fn gather_words(&self, octets: &[u8], words: &mut [u32])
        requires within { (r : ℕ) → r < length words.old
            → (r / self.now.words + 1) * self.now.octets ≤ length octets.now }
        ensures below { (r : ℕ) → r < length words.new
            → slice_index words.new r < 2 ^ self.now.used }
        ensures bits { (r : ℕ) → r < length words.new
            → HasWord (sizes self.now) octets.now r (slice_index words.new r) }
    {
        for (r, word) in words.iter_mut().enumerate() {
            *word = self.word_from(octets, r);
        }
    }

    /// Writes the octets of all groups.
    #[inline(always)]
    pub(crate) fn write_octets(&self, words: &[u32], out: &mut [u8])
        requires groups { length out.old * self.now.words ≡ length words.now * self.now.octets }
        requires within { (k : ℕ) → k < length out.old
            → (k / self.now.octets + 1) * self.now.words ≤ length words.now }
        requires below { (r : ℕ) → r < length words.now
            → slice_index words.now r < 2 ^ self.now.used }
        ensures below { (k : ℕ) → k < length out.new → slice_index out.new k < 256 }
        ensures octets { (k : ℕ) → k < length out.new
            → HasOctet (sizes self.now) words.now k (slice_index out.new k) }
    {
        let tail = self.width - self.used;
        match self.word_octets {
            1 => write_singles(words, tail, out),
            2 => write_pairs(words, tail, out),
            _ => self.gather_octets(words, out),
        }
    }

    /// Writes the words of all groups.
    pub(crate) fn write_words(&self, octets: &[u8], words: &mut [u32])
        requires groups { length octets.now * self.now.words ≡ length words.old * self.now.octets }
        requires within { (r : ℕ) → r < length words.old
            → (r / self.now.words + 1) * self.now.octets ≤ length octets.now }
        ensures below { (r : ℕ) → r < length words.new
            → slice_index words.new r < 2 ^ self.now.used }
        ensures bits { (r : ℕ) → r < length words.new
            → HasWord (sizes self.now) octets.now r (slice_index words.new r) }
    {
        let tail = self.width - self.used;
        match self.word_octets {
            1 => read_singles(octets, tail, words),
            2 => read_pairs(octets, tail, words),
            _ => self.gather_words(octets, words),
        }
    }
}
