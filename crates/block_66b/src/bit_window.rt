//! Blocks that lie across ticks.
ghost use Rattle.std.specs.Prelude.{◌≡◌, ◌+◌, ◌-◌, ◌*◌, ◌/◌, ◌%◌, ◌^◌, ◌<◌, ℕ, Bool, List, [], ◌++◌};
ghost use Rattle.jesd_base.specs.Bits.{bits, value};
ghost use Rattle.block_66b.specs.Blocks.{window, Seen, HasTaken};

use jesd_base::bits_and_numbers;
use std::marker::Model;

const BLOCK: u128 = (1 << 66) - 1;

/// The blocks of a stream of bits that comes 66 at a time, where each block ends the same number of bits
/// before the end of a tick.
#[derive(Drop)]
pub struct BitWindow {
    rest: u8,
    // The 66 bits of the tick before.
    last: u128,
}

impl Model for BitWindow {
    ghost Value = { Seen };

    ghost view = { λ s. record { rest = s.rest; last = bits 66 s.last } };

    ghost invariant = { λ s. (s.rest < 66) × (s.last < 2 ^ 66) };
}

impl BitWindow {
    /// A window on the blocks that end `rest` bits before the end of a tick. Before the first tick there
    /// are zeros.
    pub fn new(rest: u8) -> BitWindow
        requires { rest < 66 }
        ensures { HasTaken result rest [] }
    {
        BitWindow { rest, last: 0 }
    }

    /// Takes the 66 bits of a tick, and gives the block that ends in it.
    pub fn push(&mut self, tick: u128) -> u128
        requires { tick < 2 ^ 66 }
        ensures stands { (rest : ℕ) (taken : List Bool) → HasTaken self.old rest taken
            → HasTaken self.new rest (taken ++ bits 66 tick) }
        ensures answer { (rest : ℕ) (taken : List Bool) → HasTaken self.old rest taken
            → result ≡ value (window rest (taken ++ bits 66 tick)) }
        ensures below { result < 2 ^ 66 }
    {
        bits_and_numbers();
        let block = across(self.last, tick, self.rest);
        self.last = tick;
        block
    }
}

// The block that ends `rest` bits before the end of the second of two ticks.
fn across(last: u128, tick: u128, rest: u8) -> u128
    requires rest { rest < 66 }
    requires last { last < 2 ^ 66 }
    requires tick { tick < 2 ^ 66 }
    ensures block { result ≡ last % 2 ^ rest * 2 ^ (66 - rest) + tick / 2 ^ rest }
    ensures below { result < 2 ^ 66 }
{
    if rest == 0 {
        return tick;
    }
    ((last << (66 - rest)) & BLOCK) | (tick >> rest)
}
