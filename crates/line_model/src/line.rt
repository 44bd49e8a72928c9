//! The line of a lane.
ghost use Rattle.std.specs.Prelude.{◌≡◌, ◌≤◌, ◌<◌, ◌+◌, ◌-◌, ◌*◌, ◌/◌, ◌%◌, ◌^◌, ◌==◌, ◌++◌, ◌⊎◌, false, ℕ, Bool, List, [], length, get_or, take, IfOk};
ghost use Rattle.std.specs.Int.{bit_at};
ghost use Rattle.std.specs.List.{flat_map};
ghost use Rattle.std.specs.List.Sorted.{IsStrictlyIncreasing};
ghost use Rattle.jesd_base.specs.Bits.{bits};
ghost use Rattle.line_model.specs.LineBits.{Settings, is_flipped, line_word};
ghost use Rattle.line_model.specs.kept.Lines.{Kept, HasCarried, Ring, Counted, arrived};

use jesd_base::{NoMemory, bits_and_numbers};
use std::alloc::Global;
use std::marker::Model;

// No flip is at this bit or later.
const END: u128 = 1 << 64;

/// A lane's line: each tick `width` bits are put in and `width` bits received.
#[derive(Drop)]
pub struct Line {
    width: u32,
    reach: u32,
    delay: u32,
    // The delay in words and bits.
    whole: usize,
    rest: u32,
    dead: bool,
    flips: Vec<u64>,
    // The first flip that is still to come, and the number of the next bit, up to `END`.
    next: usize,
    first: u128,
    // The last words, and where the next one goes.
    words: Vec<u128>,
    at: usize,
}

impl Model for Line {
    ghost use Rattle.std.specs.Prelude.{◌≡◌, ◌≤◌, ◌<◌, ◌+◌, ◌*◌, ◌/◌, ◌^◌, ◌⊎◌, ℕ, get_or, vec_len};
    ghost use Rattle.std.specs.List.Sorted.{IsStrictlyIncreasing};
    ghost use Rattle.line_model.specs.kept.Lines.{Kept};

    ghost Value = { Kept };

    ghost view = { λ l. record { set = record { width = l.width; reach = l.reach; delay = l.delay; dead = l.dead; flips = l.flips.items }; words = l.words.items; at = l.at; next = l.next; first = l.first } };

    ghost invariant = { λ l. ((l.width ≡ 10) ⊎ (l.width ≡ 66)) × (l.reach ≤ 67584) × (l.delay ≤ l.reach) × (l.rest < l.width) × (l.whole * l.width + l.rest ≡ l.delay) × (l.whole + 2 ≤ vec_len l.words) × (vec_len l.words ≡ l.reach / l.width + 2) × (l.at < vec_len l.words) × (l.next ≤ vec_len l.flips) × (l.first ≤ 2 ^ 64) × IsStrictlyIncreasing l.flips.items × ((k : ℕ) → l.next ≤ k → k < vec_len l.flips → l.first ≤ get_or l.flips.items k 0)
        × ((k : ℕ) → get_or l.words.items k 0 < 2 ^ l.width) };
}

impl Line {
    /// A line that carries `width` bits a tick, to which no bit was given yet, with a delay of `delay` bits,
    /// which can be set to at most `reach`. The received bits whose numbers are in `flips`, counted from 0,
    /// are inverted, except those that come before the delay is over. All memory that the line needs is
    /// taken here; `NoMemory` where there is none.
    pub fn open(
        alloc: Global,
        width: u32,
        reach: u32,
        delay: u32,
        flips: Vec<u64>,
    ) -> Result<Line, NoMemory>
        requires width { (width ≡ 10) ⊎ (width ≡ 66) }
        requires delay { delay ≤ reach }
        requires reach { reach ≤ 67584 }
        requires flips { IsStrictlyIncreasing flips.items }
        ensures { IfOk result (λ l. HasCarried l (record { width = width; reach = reach; delay = delay; dead = false; flips = flips.items }) []) }
    {
        let size = (reach / width) as usize + 2;
        match vec![in alloc; 0u128; size] {
            Ok(words) => Ok(Line {
                width,
                reach,
                delay,
                whole: (delay / width) as usize,
                rest: delay % width,
                dead: false,
                flips,
                next: 0,
                first: 0,
                words,
                at: 0,
            }),
            Err(_) => Err(NoMemory),
        }
    }

    /// Takes the word of a tick, and gives the one that is received in it. Bit `width` - 1 of a word is
    /// the first on the line. Received bit i is sent bit i less the delay; before any bit has arrived, and
    /// while the line is dead, zeros are received.
    pub fn step(&mut self, word: u128) -> u128
        requires { word < 2 ^ self.old.set.width }
        ensures answer { (s : Settings) (sent : List Bool) → HasCarried self.old s sent
            → bits s.width result ≡ line_word s.width (sent ++ bits s.width word) s.flips s.delay s.dead }
        ensures below { result < 2 ^ self.old.set.width }
        ensures settings { self.new.set ≡ self.old.set }
        ensures goes_on { (s : Settings) (sent : List Bool) → HasCarried self.old s sent
            → HasCarried self.new s (sent ++ bits s.width word) }
    {
        bits_and_numbers();
        self.put(word);
        let mask = self.take_flips();
        let carried = self.carried();
        if self.dead {
            return 0;
        }
        mask ^ carried
    }

    /// Puts in the words of a run of ticks, as by so many calls of `step`, on a line of ten bits.
    /// In the place of each stands the one that is received.
    pub fn run(&mut self, words: &mut [u16])
        requires width { self.old.set.width ≡ 10 }
        requires low { (i : ℕ) → i < length words.old → get_or words.old i 0 < 1024 }
        ensures answer { (s : Settings) (sent : List Bool) → HasCarried self.old s sent
            → (i : ℕ) → i < length words.new → bits 10 (get_or words.new i 0) ≡ line_word 10
            (sent ++ flat_map (bits 10) (take (i + 1) words.old)) s.flips s.delay s.dead }
        ensures below { (i : ℕ) → i < length words.new → get_or words.new i 0 < 1024 }
        ensures settings { self.new.set ≡ self.old.set }
        ensures goes_on { (s : Settings) (sent : List Bool) → HasCarried self.old s sent
            → HasCarried self.new s (sent ++ flat_map (bits 10) words.old) }
    {
        for i in 0..words.len() {
            words[i] = self.step(u128::from(words[i])) as u16;
        }
    }

    /// As `run`, on a line of 66 bits.
    pub fn run_blocks(&mut self, blocks: &mut [u128])
        requires width { self.old.set.width ≡ 66 }
        requires low { (i : ℕ) → i < length blocks.old → get_or blocks.old i 0 < 2 ^ 66 }
        ensures answer { (s : Settings) (sent : List Bool) → HasCarried self.old s sent
            → (i : ℕ) → i < length blocks.new → bits 66 (get_or blocks.new i 0) ≡ line_word 66
            (sent ++ flat_map (bits 66) (take (i + 1) blocks.old)) s.flips s.delay s.dead }
        ensures below { (i : ℕ) → i < length blocks.new → get_or blocks.new i 0 < 2 ^ 66 }
        ensures settings { self.new.set ≡ self.old.set }
        ensures goes_on { (s : Settings) (sent : List Bool) → HasCarried self.old s sent
            → HasCarried self.new s (sent ++ flat_map (bits 66) blocks.old) }
    {
        for i in 0..blocks.len() {
            blocks[i] = self.step(blocks[i]);
        }
    }

    /// Sets the delay from the next tick on, in bits. All bits that were put in are kept.
    pub fn set_delay(&mut self, bits: u32)
        requires { bits ≤ self.old.set.reach }
        ensures width { self.new.set.width ≡ self.old.set.width }
        ensures reach { self.new.set.reach ≡ self.old.set.reach }
        ensures goes_on { (s : Settings) (sent : List Bool) → HasCarried self.old s sent
            → HasCarried self.new (record { width = s.width; reach = s.reach; delay = bits; dead = s.dead; flips = s.flips }) sent }
    {
        self.delay = bits;
        self.whole = (bits / self.width) as usize;
        self.rest = bits % self.width;
    }

    /// Sets whether the line is dead from the next tick on. A dead line takes bits, which are received if it
    /// is alive again when they arrive.
    pub fn set_dead(&mut self, dead: bool)
        ensures width { self.new.set.width ≡ self.old.set.width }
        ensures reach { self.new.set.reach ≡ self.old.set.reach }
        ensures goes_on { (s : Settings) (sent : List Bool) → HasCarried self.old s sent
            → HasCarried self.new (record { width = s.width; reach = s.reach; delay = s.delay; dead = dead; flips = s.flips }) sent }
    {
        self.dead = dead;
    }

    fn put(&mut self, word: u128)
        requires { word < 2 ^ self.old.set.width }
        ensures set { self.new.set ≡ self.old.set }
        ensures next { self.new.next ≡ self.old.next }
        ensures first { self.new.first ≡ self.old.first }
        ensures words { (w v : ℕ) → word < 2 ^ w → Ring self.old.words self.old.at w v
            → Ring self.new.words self.new.at w (v * 2 ^ w + word) }
    {
        self.words[self.at] = word;
        self.at = place_after(self.at, self.words.len());
    }

    // The word that is `age` ticks old.
    fn aged(&self, age: usize) -> u128
        requires { age < length self.now.words }
        ensures is { (w v : ℕ) → Ring self.now.words self.now.at w v
            → result ≡ v / 2 ^ (w * age) % 2 ^ w }
        ensures below { result < 2 ^ self.now.set.width }
    {
        if age < self.at {
            return self.words[self.at - 1 - age];
        }
        self.words[self.at + self.words.len() - 1 - age]
    }

    // The bits of the tick as they were put in, the delay ago.
    fn carried(&self) -> u128
        ensures is { (v : ℕ) → Ring self.now.words self.now.at self.now.set.width v
            → result ≡ v / 2 ^ self.now.set.delay % 2 ^ self.now.set.width }
        ensures below { result < 2 ^ self.now.set.width }
    {
        let newer = self.aged(self.whole);
        if self.rest == 0 {
            return newer;
        }
        let older = self.aged(self.whole + 1);
        joined(older, newer, self.width, self.rest)
    }

    // The flips of the tick, as bits of its word.
    fn take_flips(&mut self) -> u128
        ensures set { self.new.set ≡ self.old.set }
        ensures words { self.new.words ≡ self.old.words }
        ensures at { self.new.at ≡ self.old.at }
        ensures below { result < 2 ^ self.old.set.width }
        ensures counts { (n : ℕ) → Counted self.old.set.flips self.old.next self.old.first n
            → Counted self.new.set.flips self.new.next self.new.first (n + self.old.set.width) }
        ensures mask { (n : ℕ) → Counted self.old.set.flips self.old.next self.old.first n
            → (p : ℕ) → p < self.old.set.width → (bit_at result p == 1)
            ≡ arrived self.old.set.delay (n + self.old.set.width - 1 - p) (is_flipped self.old.set.flips (n + self.old.set.width - 1 - p)) }
    {
        if self.next == self.flips.len() {
            return 0;
        }
        self.take_some_flips()
    }

    // The flips of the tick where there are flips to come.
    #[inline(never)]
    fn take_some_flips(&mut self) -> u128
        ensures set { self.new.set ≡ self.old.set }
        ensures words { self.new.words ≡ self.old.words }
        ensures at { self.new.at ≡ self.old.at }
        ensures below { result < 2 ^ self.old.set.width }
        ensures counts { (n : ℕ) → Counted self.old.set.flips self.old.next self.old.first n
            → Counted self.new.set.flips self.new.next self.new.first (n + self.old.set.width) }
        ensures mask { (n : ℕ) → Counted self.old.set.flips self.old.next self.old.first n
            → (p : ℕ) → p < self.old.set.width → (bit_at result p == 1)
            ≡ arrived self.old.set.delay (n + self.old.set.width - 1 - p) (is_flipped self.old.set.flips (n + self.old.set.width - 1 - p)) }
    {
        let end = self.first + u128::from(self.width);
        let from = self.next;
        let to = flips_below(&self.flips, from, end);
        let mask = flip_mask(&self.flips, from, to, end, self.width, self.delay);
        self.next = to;
        self.first = end.min(END);
        mask
    }
}

// The place after this one in a ring.
fn place_after(at: usize, size: usize) -> usize
    requires at { at < size }
    requires small { size < 2 ^ 32 }
    ensures within { result < size }
    ensures step { at + 1 < size → result ≡ at + 1 }
    ensures around { at + 1 ≡ size → result ≡ 0 }
{
    if at + 1 < size { at + 1 } else { 0 }
}

// The last `width` bits of a word.
fn low_bits(word: u128, width: u32) -> u128
    requires { (width ≡ 10) ⊎ (width ≡ 66) }
    ensures { result ≡ word % 2 ^ width }
{
    if width == 10 {
        word % 1024
    } else {
        word % (1 << 66)
    }
}

// The last `rest` bits of one word, and the bits of the next one but its last `rest`.
fn joined(older: u128, newer: u128, width: u32, rest: u32) -> u128
    requires width { width ≤ 66 }
    requires known { (width ≡ 10) ⊎ (width ≡ 66) }
    requires rest { rest < width }
    ensures is { newer < 2 ^ width → result ≡ older % 2 ^ rest * 2 ^ (width - rest) + newer / 2 ^ rest }
    ensures below { result < 2 ^ width }
{
    low_bits((older << (width - rest)) | (newer >> rest), width)
}

// The index of the first flip from this index on that is not below this bit.
fn flips_below(flips: &[u64], from: usize, end: u128) -> usize
    requires { from ≤ length flips.now }
    ensures least { from ≤ result }
    ensures most { result ≤ length flips.now }
    ensures below { (k : ℕ) → from ≤ k → k < result → get_or flips.now k 0 < end }
    ensures next { result < length flips.now → end ≤ get_or flips.now result 0 }
    ensures early { result < length flips.now → end < 2 ^ 64 }
{
    for k in from..flips.len() {
        if u128::from(flips[k]) >= end {
            return k;
        }
    }
    flips.len()
}

// These flips as bits of the word of `width` bits before the bit `end`, without those below the delay.
fn flip_mask(flips: &[u64], from: usize, to: usize, end: u128, width: u32, delay: u32) -> u128
    requires width { width ≤ 66 }
    requires from { from ≤ to }
    requires to { to ≤ length flips.now }
    requires long { width ≤ end }
    requires below { (k : ℕ) → from ≤ k → k < to → get_or flips.now k 0 < end }
    requires above { (k : ℕ) → from ≤ k → k < to → end ≤ get_or flips.now k 0 + width }
    ensures none { from ≡ to → result ≡ 0 }
    ensures below { result < 2 ^ width }
    ensures mask { ((i : ℕ) → end ≤ i + width → is_flipped (take from flips.now) i ≡ false)
        → (p : ℕ) → p < width → (bit_at result p == 1) ≡ arrived delay (end - 1 - p) (is_flipped (take to flips.now) (end - 1 - p)) }
{
    let mut mask = 0;
    for k in from..to {
        mask |= flip_bit(flips[k], end, width, delay);
    }
    mask
}

// A flip as a bit of that word, or none where it is below the delay.
fn flip_bit(flip: u64, end: u128, width: u32, delay: u32) -> u128
    requires width { width ≤ 66 }
    requires long { width ≤ end }
    requires below { flip < end }
    requires above { end ≤ flip + width }
    ensures below { result < 2 ^ width }
    ensures bit { (p : ℕ) → p < width → (bit_at result p == 1) ≡ arrived delay (end - 1 - p) (flip == (end - 1 - p)) }
{
    if flip < u64::from(delay) {
        return 0;
    }
    1 << (end - 1 - u128::from(flip))
}
