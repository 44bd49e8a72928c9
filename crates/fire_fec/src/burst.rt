//! The burst that a remainder belongs to.
//!
//! A burst has the remainder of its mask times x^(LAST_START - start), so the remainder is
//! divided by x until nine bits are left. Fewer than nine bits are at once a burst that reaches
//! past the end of the word.
ghost use Rattle.std.specs.Prelude.{◌≡◌, ◌+◌, ◌<◌, ◌≤◌, ◌^◌, IfSome, MatchOption, Some, None};
ghost use Rattle.fire_fec.specs.kept.Shifting.{trapped};

use crate::steps::Steps;
use crate::trap::Trap;
use crate::word::{LAST_START, MASK_BITS};
use std::sync::ledger::Ledger;

// The start and the mask of the burst whose remainder is trapped, in a received word.
pub(crate) fn burst_of<L: Ledger>(mut trap: Trap, steps: &mut Steps<L>) -> Option<(u32, u16)>
    requires { 0 < trap }
    ensures burst { MatchOption result (trapped trap ≡ None)
        (λ b. trapped trap ≡ Some (record { start = b.0; mask = b.1 })) }
    ensures place { IfSome result (λ b. (b.0 < 2074) × (b.1 < 512)) }
    ensures rises { steps.old ≤ steps.new }
    ensures steps { steps.new ≤ steps.old + 2066 }
{
    let rest = trap.value();
    if rest >> (MASK_BITS - 1) == 0 {
        return Some(burst_at_end(rest));
    }
    for shifts in 0..LAST_START + 1 {
        let rest = trap.value();
        if rest >> (MASK_BITS - 1) == 1 {
            return Some((LAST_START - shifts, rest as u16));
        }
        trap.shift(steps);
    }
    None
}

// The burst that reaches past the end of the word, whose remainder has fewer than nine bits.
fn burst_at_end(rest: u32) -> (u32, u16)
    requires { (0 < rest) × (rest < 256) }
    ensures burst { trapped rest ≡ Some (record { start = result.0; mask = result.1 }) }
    ensures place { (result.0 < 2074) × (result.1 < 512) }
{
    let past = MASK_BITS - 1 - rest.ilog2();
    (LAST_START + past, (rest << past) as u16)
}
