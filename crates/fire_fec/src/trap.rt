//! A remainder that takes blocks in and is shifted.
ghost use Rattle.std.specs.Prelude.{◌≡◌, ◌<◌, ◌+◌, ◌^◌, ℕ, Bool, List, [], ◌++◌};
ghost use Rattle.jesd_base.specs.Bits.{bits, value};
ghost use Rattle.jesd_base.specs.Division.{rem};
ghost use Rattle.fire_fec.specs.Burst.{fire, parity};
ghost use Rattle.fire_fec.specs.Corrects.{received};
ghost use Rattle.fire_fec.specs.kept.Shifting.{over_x};
ghost use Rattle.fire_fec.specs.kept.Taking.{block_taken, times_power};

use crate::remainder::after_block;
use crate::steps::Steps;
use std::marker::Model;
use std::sync::ledger::Ledger;

// x^26 + x^21 + x^17 + x^9 + x^4 + 1, bit 26 having the highest power.
const DIVISOR: u32 = 1 << 26 | 1 << 21 | 1 << 17 | 1 << 9 | 1 << 4 | 1;

/// A remainder by the divisor of `parity`, which takes blocks in and is divided by x until a
/// burst stands in its last nine bits (JESD204C.1, 64b/66b link layer, forward error correction).
///
/// The remainder has 26 bits, of which bit 25 has the highest power. Contracts see it as a
/// number. Each block that is taken in and each shift is one step.
#[derive(Clone, Copy, Debug)]
pub struct Trap {
    rest: u32,
}

impl Model for Trap {
    ghost Value = { ℕ };

    ghost view = { λ t. t.rest };

    ghost invariant = { λ t. t.rest < 2 ^ 26 };

    ghost inverse = { λ n. record { rest = n } };
}

impl Trap {
    /// The remainder 0, which is the parity of no bits.
    pub fn new() -> Trap
        ensures zero { result ≡ 0 }
        ensures parity { result ≡ value (parity []) }
    {
        Trap { rest: 0 }
    }

    /// The remainder, a number of 26 bits.
    pub fn value(&self) -> u32
        ensures value { result ≡ self.now }
        ensures below { result < 2 ^ 26 }
    {
        self.rest
    }

    /// Takes the 64 bits of a block in, bit 63 first: the remainder is multiplied by x^64, and
    /// the block times x^26 is added. The parity of bits becomes that of these bits with the
    /// block behind them.
    pub fn take<L: Ledger>(&mut self, payload: u64, steps: &mut Steps<L>)
        ensures remainder { self.new ≡ block_taken self.old payload }
        ensures parity { (before : List Bool) → self.old ≡ value (parity before)
            → self.new ≡ value (parity (before ++ bits 64 payload)) }
        ensures steps { steps.new ≡ steps.old + 1 }
    {
        steps.tick();
        self.rest = after_block(self.rest, payload);
    }

    /// Divides the remainder by x: times x, it has the remainder that stood before.
    pub fn shift<L: Ledger>(&mut self, steps: &mut Steps<L>)
        ensures divided { times_power 1 self.new ≡ self.old }
        ensures below { self.new < 2 ^ 26 }
        ensures steps { steps.new ≡ steps.old + 1 }
    {
        steps.tick();
        self.rest = over_x(self.rest);
    }

    // The remainder of a received word.
    pub(crate) fn of_word<L: Ledger>(payload: &[u64; 32], check: u32, steps: &mut Steps<L>) -> Trap
        requires { check < 2 ^ 26 }
        ensures rest { result ≡ value (rem fire (received payload.now check)) }
        ensures steps { steps.new ≡ steps.old + 32 }
    {
        let mut trap = Trap::new();
        for block in payload {
            trap.take(*block, steps);
        }
        Trap {
            rest: trap.rest ^ check,
        }
    }
}

// The remainder whose product with x is `rest`.
fn over_x(rest: u32) -> u32
    requires { rest < 2 ^ 26 }
    ensures below { result < 2 ^ 26 }
    ensures over { result ≡ over_x rest }
{
    if rest % 2 == 1 {
        (rest ^ DIVISOR) / 2
    } else {
        rest / 2
    }
}
