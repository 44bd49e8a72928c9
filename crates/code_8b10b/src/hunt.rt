//! The hunt for the commas of code group synchronization.
ghost use Rattle.std.specs.Prelude.{◌≡◌, ◌≤◌, ◌<◌, ◌+◌, ◌-◌, ◌^◌, ◌++◌, ℕ, Bool, List, [], None, IfSome, drop, ◌/◌, ◌%◌};
ghost use Rattle.jesd_base.specs.Bits.{bits};
ghost use Rattle.code_8b10b.specs.Commas.{found, HasHunted};

use crate::character::Rd;
use jesd_base::bits_and_numbers;
use std::marker::Model;

/// Where a hunt ended.
#[derive(Clone, Copy, PartialEq, Eq, Debug)]
pub struct Lock {
    /// How many of the last ten bits come after the four commas, 0 to 9.
    pub rest: u8,
    /// The disparity after the fourth comma.
    pub rd: Rd,
}

/// A hunt for /K/ four times, at any bit (JESD204B.01 clause 5.3.3.1, "Code group synchronization"). It is seen
/// as the last 39 bits that came since it began, fewer where fewer came.
#[derive(Debug, Drop)]
pub struct Hunt {
    last: u64,
    count: u8,
}

impl Model for Hunt {
    ghost use Rattle.std.specs.Prelude.{◌≤◌, ◌<◌, ◌^◌, Bool, List};
    ghost use Rattle.jesd_base.specs.Bits.{bits};

    ghost Value = { List Bool };

    ghost view = { λ h. bits h.count h.last };

    ghost invariant = { λ h. (h.last < 2 ^ 39) × (h.count ≤ 39) };
}

// /K/ four times, from negative and from positive disparity, and masks.
const COMMAS: u64 = 0x3EB053EB05;

const OTHER_COMMAS: u64 = 0xC14FAC14FA;

const TEN_BITS: u64 = 0x3FF;

const FORTY_BITS: u64 = 0xFF_FFFF_FFFF;

const LAST_BITS: u64 = 0x7F_FFFF_FFFF;

impl Hunt {
    /// A hunt that has no bits yet.
    pub fn new() -> Hunt
        ensures { HasHunted result [] }
    {
        Hunt { last: 0, count: 0 }
    }

    /// A hunt whose first bits are the last `rest` bits of `word`.
    pub fn resume(word: u16, rest: u8) -> Hunt
        requires bits { word < 1024 }
        requires rest { rest < 10 }
        ensures { HasHunted result (drop (10 - rest) (bits 10 word)) }
    {
        Hunt {
            last: u64::from(word),
            count: rest,
        }
    }

    /// Takes ten bits, of which bit 9 came first. Answers in the call that completes the least place since the
    /// hunt began where forty bits are the words 0x0FA 0x305 0x0FA 0x305 or 0x305 0x0FA 0x305 0x0FA. A hunt ends
    /// there: no clause says which bits it keeps after that answer.
    pub fn push(&mut self, word: u16) -> Option<Lock>
        requires { word < 1024 }
        ensures rest { IfSome result (λ l. l.rest < 10) }
        ensures answer { (taken : List Bool) → HasHunted self.old taken → result ≡ found (taken ++ bits 10 word) }
        ensures hunts_on { (taken : List Bool) → HasHunted self.old taken → result ≡ None → HasHunted self.new (taken ++ bits 10 word) }
    {
        bits_and_numbers();
        let window = self.last << 10 | u64::from(word);
        let count = self.count + 10;
        self.last = window & LAST_BITS;
        self.count = count.min(39);
        lock_in(window, count)
    }
}

// What a hunt answers once the low `count` bits of `window` have come.
fn lock_in(window: u64, count: u8) -> Option<Lock>
    requires window { window < 2 ^ 49 }
    requires count { count ≤ 49 }
    ensures rest { IfSome result (λ l. l.rest < 10) }
    ensures answer { result ≡ found (bits count window) }
{
    bits_and_numbers();
    let rest = phase_of(window)?;
    if count < 40 + rest {
        return None;
    }
    let rd = match window >> rest & FORTY_BITS {
        COMMAS => Rd::Minus,
        OTHER_COMMAS => Rd::Plus,
        _ => return None,
    };
    Some(Lock { rest, rd })
}

// The one number of bits that can come after four commas which end among the last ten bits. In commas one after
// another, five equal bits in a row are bits c to f of a comma: the highest such five show where the last one is.
fn phase_of(window: u64) -> Option<u8>
    requires { window < 2 ^ 49 }
    ensures below { IfSome result (λ r. r < 10) }
    ensures commas { (r : ℕ) → r < 10 → window / 2 ^ r % 2 ^ 40 ≡ COMMAS → result ≡ Some r }
    ensures other_commas { (r : ℕ) → r < 10 → window / 2 ^ r % 2 ^ 40 ≡ OTHER_COMMAS → result ≡ Some r }
{
    let changes = window ^ window >> 1;
    let unequal = changes | changes >> 1 | changes >> 2 | changes >> 3;
    let fives = (unequal >> 3 & TEN_BITS) ^ TEN_BITS;
    if fives == 0 {
        return None;
    }
    Some(fives.ilog2() as u8)
}
