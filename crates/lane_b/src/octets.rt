//! The octets of a receiver lane's data.
ghost use Rattle.std.specs.Prelude.{◌≡◌, ◌++◌, ◌∷◌, [], ◌%◌, ℕ, List, length, ◌||◌};
ghost use Rattle.link_params.specs.declared.fields.Params.{Params as ParamsValue};
ghost use Rattle.link_params.specs.declared.fields.Mode.TheVariants.{B};
ghost use Rattle.link_params.specs.Numbers.{period};
ghost use Rattle.code_8b10b.specs.declared.character.Reading.{Reading as ReadingValue};
ghost use Rattle.char_replace.specs.Restoring.{is_bad_char};
ghost use Rattle.lane_b.specs.Received.{data_cells, marked};
ghost use Rattle.lane_b.specs.kept.Cells.{HasReadData};

use char_replace::Restore;
use code_8b10b::Reading;
use lane_scramble::Scr15;
use link_params::{LaneCell, Mark, Shape};
use std::marker::Model;

/// Makes octets of readings. Contracts see it as the parameters, the restorer, the descrambler, and whether the last data
/// character and the one before it were bad.
#[derive(Drop)]
pub struct Octets {
    shape: Shape,
    restore: Restore,
    scrambler: Scr15,
    // Whether the last data character and the one before it were bad.
    one_bad: bool,
    two_bad: bool,
}

impl Model for Octets {
    ghost use Rattle.lane_b.specs.kept.Cells.{Giver};

    ghost Value = { Giver };

    ghost view = { λ s. record { params = s.shape; restore = s.restore; scrambler = s.scrambler; one_bad = s.one_bad; two_bad = s.two_bad } };
}

/// What a reading of data gives.
#[derive(Clone, Copy, Debug)]
pub struct Given {
    /// The octet with its mark.
    pub cell: LaneCell,
    /// The character is bad.
    pub fault: bool,
}

impl Octets {
    /// A lane whose data begins.
    pub fn new(shape: &Shape) -> Octets
        requires { shape.now.mode ≡ B }
        ensures { HasReadData result shape.now [] }
    {
        Octets {
            shape: *shape,
            restore: Restore::new(shape),
            scrambler: Scr15::new(),
            one_bad: false,
            two_bad: false,
        }
    }

    /// What the next reading gives, which stands at this place of its multiframe, counted from 0.
    pub fn push(&mut self, place: u32, reading: Reading) -> Given
        ensures cell { (p : ParamsValue) (read : List ReadingValue) → HasReadData self.old p read → place ≡ length read % period p
            → data_cells p (read ++ reading ∷ []) ≡ data_cells p read ++ result.cell ∷ [] }
        ensures fault { (p : ParamsValue) (read : List ReadingValue) → HasReadData self.old p read → place ≡ length read % period p
            → result.fault ≡ is_bad_char p (length read) reading }
        ensures goes_on { (p : ParamsValue) (read : List ReadingValue) → HasReadData self.old p read → place ≡ length read % period p
            → HasReadData self.new p (read ++ reading ∷ []) }
    {
        let restored = self.restore.push(place, reading);
        let octet = self.scrambler.descramble(restored.octet);
        let bad = is_bad_scrambled(self.two_bad, self.one_bad, restored.bad);
        self.two_bad = self.one_bad;
        self.one_bad = restored.bad;
        let cell = if self.shape.params().scr {
            cell(octet, bad)
        } else {
            cell(restored.octet, restored.bad)
        };
        Given {
            cell,
            fault: restored.fault,
        }
    }
}

// With scrambling an octet is bad where its own character or one of the two before it is.
fn is_bad_scrambled(two: bool, one: bool, bad: bool) -> bool
    ensures { result ≡ (two || one || bad) }
{
    two || one || bad
}

fn cell(octet: u8, bad: bool) -> LaneCell
    ensures { result ≡ record { value = octet; mark = marked bad } }
{
    LaneCell {
        value: u64::from(octet),
        mark: if bad { Mark::Bad } else { Mark::Ok },
    }
}
