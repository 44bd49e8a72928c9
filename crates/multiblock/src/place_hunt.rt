//! The hunt for the place of multiblocks.
ghost use Rattle.std.specs.Prelude.{◌≡◌, ◌≤◌, ◌<◌, ◌+◌, ◌-◌, ◌*◌, ◌/◌, ◌%◌, ◌^◌, ◌==◌, ◌++◌, max, min, ◌&&◌, true, false, ℕ, Bool, List, [], None, length, drop, get_or, IfSome};
ghost use Rattle.std.specs.Int.{bit_at};
ghost use Rattle.jesd_base.specs.Bits.{bits, add};
ghost use Rattle.jesd_base.specs.Search.{first_from};
ghost use Rattle.multiblock.specs.Places.{found, next_place, pattern_size, span};
ghost use Rattle.multiblock.specs.laws.PlaceLaws.{FindsLeastPlace, FindsNone, PatternStays, PlaceStays, FoundInTick};
ghost use Rattle.multiblock.specs.kept.Hunts.{Kept, HasHunted, HasKept, aged, is_good, sync_bit, all_good, pilot_at, all_words, ends_of, remainder_at, StandsAt, IsFound, IsNothing};

use crate::place::Place;
use jesd_base::bits_and_numbers;
use std::marker::Model;

const TICKS: usize = 1024;

const PHASES: u128 = (1 << 66) - 1;

// More bits than the longest pattern and a tick have.
const ENOUGH: u32 = 67_650;

/// The hunt for multiblocks at any bit of a stream that comes 66 bits at a time.
#[derive(Debug, Drop)]
pub struct PlaceHunt {
    e: u32,
    count: u32,
    last: u128,
    at: usize,
    // Bits r and r + 1 are the header of the block that ends r bits before the end of the tick.
    heads: [u128; 1024],
}

impl Model for PlaceHunt {
    ghost use Rattle.std.specs.Prelude.{◌≤◌, ◌<◌, ◌^◌, length};
    ghost use Rattle.multiblock.specs.kept.Hunts.{Kept};

    ghost Value = { Kept };

    ghost view = { λ h. record { e = h.e; count = h.count; last = h.last; at = h.at; heads = h.heads } };

    ghost invariant = { λ h. (1 ≤ h.e) × (h.e ≤ 32) × (h.count ≤ 67650) × (h.last < 2 ^ 66) × (h.at < 1024) };
}

impl PlaceHunt {
    /// A hunt that has no bits yet, for extended multiblocks of `e` multiblocks.
    pub fn new(e: u32) -> PlaceHunt
        requires low { 1 ≤ e }
        requires high { e ≤ 32 }
        ensures { HasHunted result e [] }
    {
        PlaceHunt {
            e,
            count: 0,
            last: 0,
            at: 0,
            heads: no_heads(),
        }
    }

    /// A hunt whose first bits are the last `rest` bits of `word`.
    pub fn resume(e: u32, word: u128, rest: u8) -> PlaceHunt
        requires low { 1 ≤ e }
        requires high { e ≤ 32 }
        requires word { word < 2 ^ 66 }
        requires rest { rest < 66 }
        ensures { HasHunted result e (drop (66 - rest) (bits 66 word)) }
    {
        bits_and_numbers();
        let mut hunt = PlaceHunt::new(e);
        hunt.take(low_bits(word, rest));
        hunt.count = u32::from(rest);
        hunt
    }

    /// Takes the 66 bits of a tick, of which bit 65 came first. Answers in the tick that completes the
    /// least place since the hunt began from which 32 * max(4, `e`) blocks have good headers, each sync
    /// word ends in 00001, and the end bits are 1 in exactly the multiblocks of one remainder modulo `e`.
    /// A hunt ends there: no clause says what it keeps after that answer. A `BitWindow` made with the
    /// place's `rest` goes on from there.
    pub fn push(&mut self, word: u128) -> Option<Place>
        requires { word < 2 ^ 66 }
        ensures answer { (e : ℕ) (taken : List Bool) → HasHunted self.old e taken
            → result ≡ found e (taken ++ bits 66 word) }
        ensures hunts_on { (e : ℕ) (taken : List Bool) → HasHunted self.old e taken → result ≡ None
            → HasHunted self.new e (taken ++ bits 66 word) }
        ensures rest { IfSome result (λ p. p.rest < 66) }
        ensures next { IfSome result (λ p. p.next < 32 * self.old.e) }
    {
        bits_and_numbers();
        self.take(word);
        let phases = self.phases();
        if phases == 0 {
            return None;
        }
        self.place_in(phases)
    }

    fn take(&mut self, word: u128)
        requires { word < 2 ^ 66 }
        ensures e { self.new.e ≡ self.old.e }
        ensures least { 1 ≤ self.new.e }
        ensures most { self.new.e ≤ 32 }
        ensures count { self.new.count ≡ min (self.old.count + 66) 67650 }
        ensures last { self.new.last ≡ word }
        ensures newest { aged self.new 0 ≡ self.old.last * 4 + word / 2 ^ 64 }
        ensures older { (j : ℕ) → j < 1023 → aged self.new (1 + j) ≡ aged self.old j }
    {
        let at = self.at;
        self.heads[at] = (self.last << 2) | (word >> 64);
        self.at = (at + 1) % TICKS;
        self.last = word;
        self.count = (self.count + 66).min(ENOUGH);
    }

    // The headers of the tick that is `age` ticks old.
    fn aged(&self, age: usize) -> u128
        requires { age < 1024 }
        ensures { result ≡ aged self.now age }
    {
        self.heads[(self.at + 1023 - age) % TICKS]
    }

    // V, the multiblocks of the pattern.
    fn size(&self) -> usize
        ensures size { result ≡ pattern_size self.now.e }
        ensures most { result ≤ 32 }
        ensures least { 4 ≤ result }
    {
        self.e.max(4) as usize
    }

    // The phases at which the last V multiblocks have good headers and pilots.
    fn phases(&self) -> u128
        ensures { (r : ℕ) → r < 66 → (bit_at result r == 1) ≡ all_words (is_good self.now r) (sync_bit self.now r) (pattern_size self.now.e) }
    {
        let mut phases = PHASES;
        let size = self.size();
        for n in 0..size {
            phases &= self.word_phases(32 * n);
            if phases == 0 {
                return 0;
            }
        }
        phases
    }

    // The phases at which 32 headers from this age on are good, and end in the pilot.
    fn word_phases(&self, age: usize) -> u128
        requires { age + 32 ≤ 1024 }
        ensures { (r : ℕ) → r < 66 → (bit_at result r == 1) ≡ (all_good (is_good self.now r) age 32 && pilot_at (sync_bit self.now r) age) }
    {
        let pilots = self.pilot_phases(age);
        if pilots == 0 {
            return 0;
        }
        pilots & self.good_phases(age)
    }

    fn good_phases(&self, age: usize) -> u128
        requires { age + 32 ≤ 1024 }
        ensures { (r : ℕ) → r < 66 → (bit_at result r == 1) ≡ all_good (is_good self.now r) age 32 }
    {
        let mut phases = PHASES;
        for n in 0..32 {
            let heads = self.aged(n + age);
            phases &= heads ^ (heads >> 1);
        }
        phases
    }

    fn pilot_phases(&self, age: usize) -> u128
        requires { age + 32 ≤ 1024 }
        ensures { (r : ℕ) → r < 66 → (bit_at result r == 1) ≡ pilot_at (sync_bit self.now r) age }
    {
        let zeros = self.aged(1 + age)
            | self.aged(2 + age)
            | self.aged(3 + age)
            | self.aged(4 + age);
        let ones = self.aged(age);
        (ones | zeros) ^ zeros
    }

    // The least place that was completed in this tick, of those at these phases.
    fn place_in(&self, phases: u128) -> Option<Place>
        ensures some { IfSome result (λ p. IsFound self.now phases p) }
        ensures none { result ≡ None → (r : ℕ) → r < 66 → IsNothing self.now phases r }
    {
        for i in 0..66u8 {
            let place = self.place_at(phases, 65 - i);
            if place.is_some() {
                return place;
            }
        }
        None
    }

    fn place_at(&self, phases: u128, rest: u8) -> Option<Place>
        requires { rest < 66 }
        ensures some { IfSome result (λ p. StandsAt self.now phases p × (p.rest ≡ rest)) }
        ensures none { result ≡ None → IsNothing self.now phases rest }
    {
        if (phases >> rest) & 1 == 0 || !self.is_whole(rest) {
            return None;
        }
        let remainder = self.remainder(rest)?;
        Some(Place {
            rest,
            next: self.next(remainder),
        })
    }

    fn is_whole(&self, rest: u8) -> bool
        ensures yes { result ≡ true → span self.now.e + rest ≤ self.now.count }
        ensures no { result ≡ false → self.now.count < span self.now.e + rest }
    {
        66 * (32 * self.size()) + usize::from(rest) <= self.count as usize
    }

    // The remainder of the multiblocks with a 1 as end bit.
    fn remainder(&self, rest: u8) -> Option<u32>
        requires { rest < 66 }
        ensures is { result ≡ remainder_at self.now rest }
        ensures below { IfSome result (λ m. m < self.now.e) }
    {
        bits_and_numbers();
        for m in 0..self.e {
            if self.has_ends(rest, m) {
                return Some(m);
            }
        }
        None
    }

    fn has_ends(&self, rest: u8, m: u32) -> bool
        requires { rest < 66 }
        ensures { result ≡ ends_of self.now.e m (sync_bit self.now rest) 0 (pattern_size self.now.e) }
    {
        let size = self.size();
        for j in 0..size {
            let end = (self.aged(9 + 32 * (size - 1 - j)) >> rest) & 1 == 1;
            let wanted = j as u32 % self.e == m;
            if end != wanted {
                return false;
            }
        }
        true
    }

    fn next(&self, remainder: u32) -> u32
        requires { remainder < self.now.e }
        ensures { result ≡ next_place self.now.e remainder }
    {
        32 * ((self.e.max(4) + self.e - 1 - remainder) % self.e)
    }
}

fn no_heads() -> [u128; 1024]
    ensures { (k : ℕ) → get_or result k 0 ≡ 0 }
{
    [0; 1024]
}

fn low_bits(word: u128, count: u8) -> u128
    requires { count < 66 }
    ensures { result ≡ word % 2 ^ count }
{
    word & ((1 << count) - 1)
}

/// What a hunt finds.
pub fn places()
    ensures least { FindsLeastPlace }
    ensures none { FindsNone }
    ensures pattern { PatternStays }
    ensures place { PlaceStays }
    ensures tick { FoundInTick }
{}
