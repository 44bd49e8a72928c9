//! Correction of a received payload.
ghost use Rattle.std.specs.Prelude.{◌≡◌, ◌+◌, ◌<◌, ◌≤◌, ◌^◌};
ghost use Rattle.fire_fec.specs.Corrects.{Corrects};

use crate::burst::burst_of;
use crate::fix::Fix;
use crate::flip::add_burst;
use crate::steps::Steps;
use crate::trap::Trap;
use std::marker::Brand;
use std::sync::ledger::{Blank, Ledger};

/// Corrects one burst of at most nine wrong bits in a received payload of 32 blocks, by its received
/// check (JESD204C.1, 64b/66b link layer, forward error correction).
///
/// The received word is the payload, the first block's bit 63 first, and then the check, bit 25 first:
/// 2,074 bits. `Whole` comes exactly where its remainder by the divisor of `parity` is 0. `Fixed` comes
/// exactly where one burst explains it, and `Uncorrectable` exactly where none does. At `Fixed` the
/// burst's bits in the payload were inverted; else the payload is unchanged. Several bursts may be taken
/// for one.
///
/// A step is one shift of the remainder, or one block taken in: the counter counts the calls of `Trap`
/// alone, and never falls.
pub fn correct<L: Ledger>(payload: &mut [u64; 32], check: u32, steps: &mut Steps<L>) -> Fix
    requires { check < 2 ^ 26 }
    ensures answer { Corrects payload.old check payload.new result }
    ensures rises { steps.old ≤ steps.new }
    ensures steps { steps.new ≤ steps.old + 2106 }
{
    let trap = Trap::of_word(payload, check, steps);
    if trap.value() == 0 {
        return Fix::Whole;
    }
    match burst_of(trap, steps) {
        Some((start, mask)) => {
            add_burst(payload, start, mask);
            Fix::Fixed { start, mask }
        }
        None => Fix::Uncorrectable,
    }
}

/// As `correct`, for callers that count no steps.
pub fn correct_uncounted(payload: &mut [u64; 32], check: u32) -> Fix
    requires { check < 2 ^ 26 }
    ensures answer { Corrects payload.old check payload.new result }
{
    correct_on::<Brand>(payload, check, Blank::new(1))
}

// As `correct`, on a new ledger.
fn correct_on<L: Ledger>(payload: &mut [u64; 32], check: u32, blank: Blank) -> Fix
    requires check { check < 2 ^ 26 }
    requires name { blank.name ≡ L.name }
    requires parts { (blank.parts ≡ L.parts) × (0 < blank.parts) }
    ensures answer { Corrects payload.old check payload.new result }
{
    let mut steps = Steps::<L>::open(blank);
    correct(payload, check, &mut steps)
}
