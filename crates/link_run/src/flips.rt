//! The received bits of a lane that are inverted.
ghost use Rattle.std.specs.Prelude.{◌≡◌, ◌≤◌, ◌+◌, ◌^◌, ◌==◌, ◌&&◌, nat_le, nat_lt, ℕ, All, IfOk, OnOk};
ghost use Rattle.std.specs.List.Sorted.{IsStrictlyIncreasing};
ghost use Rattle.jesd_base.specs.Bits.{add};
ghost use Rattle.line_model.specs.LineBits.{is_flipped};
ghost use Rattle.scenario.specs.Plans.{Plan};
ghost use Rattle.link_model.specs.Carried.{inverted_bits};

use jesd_base::NoMemory;
use scenario::Flip;
use std::alloc::Global;

/// The received bits of a lane that an odd number of flips cover, ascending.
pub fn inverted_bits(alloc: Global, flips: &[Flip], lane: u32) -> Result<Vec<u64>, NoMemory>
    requires { All (λ f. f.first + f.count ≤ 2 ^ 60) flips.now }
    ensures ascending { IfOk result (λ v. IsStrictlyIncreasing v.items) }
    ensures inverted { (s : Plan) (n : ℕ) → s.flips ≡ flips.now
        → All (λ f. f.first + f.count ≤ n) flips.now
        → IfOk result (λ v. v.items ≡ inverted_bits s lane n) }
{
    let mut bits = Vec::new(alloc);
    for flip in flips {
        if flip.lane == lane {
            invert(&mut bits, flip)?;
        }
    }
    Ok(bits)
}

// The bits of one flip change their state.
fn invert(bits: &mut Vec<u64>, flip: &Flip) -> Result<(), NoMemory>
    requires end { flip.now.first + flip.now.count ≤ 2 ^ 60 }
    requires ascending { IsStrictlyIncreasing bits.old.items }
    ensures ascending { OnOk result (IsStrictlyIncreasing bits.new.items) }
    ensures members { OnOk result ((i : ℕ) → is_flipped bits.new.items i
        ≡ add (nat_le flip.now.first i && nat_lt i (flip.now.first + flip.now.count)) (is_flipped bits.old.items i)) }
{
    for bit in flip.first..flip.first + u64::from(flip.count) {
        toggle(bits, bit)?;
    }
    Ok(())
}

// A bit that is among these goes, and one that is not comes.
fn toggle(bits: &mut Vec<u64>, bit: u64) -> Result<(), NoMemory>
    requires { IsStrictlyIncreasing bits.old.items }
    ensures ascending { OnOk result (IsStrictlyIncreasing bits.new.items) }
    ensures members { OnOk result ((i : ℕ)
        → is_flipped bits.new.items i ≡ add (bit == i) (is_flipped bits.old.items i)) }
{
    match bits.binary_search(&bit) {
        Ok(at) => {
            bits.remove(at);
            Ok(())
        }
        Err(at) => match bits.insert(at, bit) {
            Ok(()) => Ok(()),
            Err(_) => Err(NoMemory),
        },
    }
}
