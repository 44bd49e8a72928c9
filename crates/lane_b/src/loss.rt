//! Whether a receiver lane is lost.
ghost use Rattle.std.specs.Prelude.{◌≡◌, ◌≤◌, ◌++◌, ◌∷◌, ◌||◌, [], Bool, List, min, nat_le, count_ones};
ghost use Rattle.lane_b.specs.Loss.{has_four_faults, has_four_misplaced, with_option};
ghost use Rattle.lane_b.specs.kept.Counts.{HasCounted, misplaced_after};

use std::marker::Model;

/// The faults and the misplaced alignment characters of a lane. Contracts see it as the last sixteen faults as a number, the
/// misplaced characters since the last accepted one up to four, and whether the lane is lost.
#[derive(Drop)]
pub struct Loss {
    // The latest is the lowest.
    faults: u16,
    misplaced: u8,
    lost: bool,
}

impl Model for Loss {
    ghost use Rattle.std.specs.Prelude.{◌≤◌};
    ghost use Rattle.lane_b.specs.kept.Counts.{Counter};

    ghost Value = { Counter };

    ghost view = { λ s. record { faults = s.faults; misplaced = s.misplaced; lost = s.lost } };

    ghost invariant = { λ s. s.misplaced ≤ 4 };
}

impl Loss {
    /// A lane that has no readings yet.
    pub fn new() -> Loss
        ensures { HasCounted result [] [] }
    {
        Loss {
            faults: 0,
            misplaced: 0,
            lost: false,
        }
    }

    /// The next reading: whether it is a fault, and whether it is an alignment character that is accepted or misplaced.
    pub fn push(&mut self, fault: bool, alignment: Option<bool>)
        ensures { (faults alignments : List Bool) → HasCounted self.old faults alignments
            → HasCounted self.new (faults ++ fault ∷ []) (alignments ++ with_option alignment []) }
    {
        self.faults = self.faults << 1 | u16::from(fault);
        self.misplaced = misplaced_next(self.misplaced, alignment);
        if is_over(self.faults, self.misplaced) {
            self.lost = true;
        }
    }

    /// Whether the lane is lost.
    pub fn is_lost(&self) -> bool
        ensures { result ≡ self.now.lost }
    {
        self.lost
    }
}

// The misplaced characters since the last accepted one, four where there are more.
#[tactic(auto, unfolding(crate::specs::kept::Counts::misplaced_after))]
fn misplaced_next(misplaced: u8, alignment: Option<bool>) -> u8
    requires { misplaced ≤ 4 }
    ensures value { result ≡ min 4 (misplaced_after misplaced (with_option alignment [])) }
    ensures within { result ≤ 4 }
{
    match alignment {
        Some(true) => 0,
        Some(false) => (misplaced + 1).min(4),
        None => misplaced,
    }
}

// Whether four of the last sixteen readings are faults, or four characters in a row are misplaced.
fn is_over(faults: u16, misplaced: u8) -> bool
    ensures { result ≡ (nat_le 4 (count_ones faults) || nat_le 4 misplaced) }
{
    faults.count_ones() >= 4 || misplaced >= 4
}
