//! A receiver lane from the start of its alignment sequence on.
ghost use Rattle.std.specs.Prelude.{◌≡◌, ◌<◌, ◌≤◌, ◌*◌, ◌%◌, ◌++◌, ◌∷◌, [], ℕ, List};
ghost use Rattle.link_params.specs.declared.fields.Params.{Params as ParamsValue};
ghost use Rattle.link_params.specs.declared.fields.Mode.TheVariants.{B};
ghost use Rattle.code_8b10b.specs.declared.character.Reading.{Reading as ReadingValue};
ghost use Rattle.ilas.specs.Checked.{ilas_state};
ghost use Rattle.lane_b.specs.Loss.{is_lost};
ghost use Rattle.lane_b.specs.kept.Starts.{GivesEntry, HasRead, next_kept_place};

use crate::alignment::{alignment_at, is_wrong_in_ilas};
use crate::loss::Loss;
use crate::octets::Octets;
use code_8b10b::Reading;
use ilas::IlasCheck;
use link_params::{IlasState, LaneCell, Link};
use std::marker::Model;

/// What a lane keeps of its readings since its start. Contracts see it as the parameters, the check of the alignment sequence and
/// its state, the place of the next reading, the counts of faults, and what makes octets of data.
#[derive(Drop)]
pub struct Started {
    link: Link,
    check: IlasCheck,
    ilas: IlasState,
    // The place of the next reading, counted from the start. After the first multiframe of data it goes round in the second one.
    place: u32,
    loss: Loss,
    octets: Octets,
}

impl Model for Started {
    ghost use Rattle.std.specs.Prelude.{◌≡◌, ◌<◌, ◌*◌};
    ghost use Rattle.link_params.specs.declared.fields.Mode.TheVariants.{B};
    ghost use Rattle.link_params.specs.Numbers.{period};
    ghost use Rattle.lane_b.specs.kept.Starts.{Reader};

    ghost Value = { Reader };

    ghost view = { λ s. record { params = s.link.params; check = s.check; ilas = s.ilas; place = s.place; loss = s.loss; octets = s.octets } };

    ghost invariant = { λ s. (s.link.params.mode ≡ B) × (0 < s.link.params.l) × (s.place < 6 * period s.link.params) };
}

impl Started {
    /// A lane whose start comes with the next reading.
    pub fn new(link: &Link, lane: u32) -> Started
        requires mode { link.now.params.mode ≡ B }
        requires lane { lane < link.now.params.l }
        ensures { HasRead result link.now.params lane [] }
    {
        let shape = link.shape();
        let _period = shape.period();
        Started {
            link: *link,
            check: IlasCheck::new(link, lane),
            ilas: IlasState::Idle,
            place: 0,
            loss: Loss::new(),
            octets: Octets::new(&shape),
        }
    }

    /// The next reading, and what its entry gives: nothing for a place of the alignment sequence, else the octet with its mark.
    pub fn push(&mut self, reading: Reading) -> Option<LaneCell>
        ensures entry { (p : ParamsValue) (lane : ℕ) (since : List ReadingValue) → HasRead self.old p lane since → GivesEntry p since reading result }
        ensures goes_on { (p : ParamsValue) (lane : ℕ) (since : List ReadingValue) → HasRead self.old p lane since
            → HasRead self.new p lane (since ++ reading ∷ []) }
    {
        let shape = self.link.shape();
        let (period, place) = (shape.period(), self.place);
        let alignment = alignment_at(&shape, place, reading);
        self.place = next_place(period, place);
        if place < 4 * period {
            self.ilas = self.check.push(reading);
            let fault = is_wrong_in_ilas(&self.link, place, reading);
            self.loss.push(fault, alignment);
            return None;
        }
        let given = self.octets.push(place_of_data(period, place), reading);
        self.loss.push(given.fault, alignment);
        Some(given.cell)
    }

    /// Where the check of the alignment sequence stands.
    pub fn ilas(&self) -> IlasState
        ensures { (p : ParamsValue) (lane : ℕ) (since : List ReadingValue) → HasRead self.now p lane since → result ≡ ilas_state p lane since }
    {
        self.ilas
    }

    /// Whether the lane is lost.
    pub fn is_lost(&self) -> bool
        ensures { (p : ParamsValue) (lane : ℕ) (since : List ReadingValue) → HasRead self.now p lane since → result ≡ is_lost p since }
    {
        self.loss.is_lost()
    }
}

// The place in its multiframe of a reading of data.
fn place_of_data(period: u32, place: u32) -> u32
    requires from { 4 * period ≤ place }
    requires place { place < 6 * period }
    ensures { result ≡ place % period }
{
    let past = place - 4 * period;
    if past < period { past } else { past - period }
}

// The place that comes after this one.
fn next_place(period: u32, place: u32) -> u32
    requires period { period ≤ 1024 }
    requires place { place < 6 * period }
    ensures value { result ≡ next_kept_place period place }
    ensures within { result < 6 * period }
{
    if place + 1 == 6 * period {
        5 * period
    } else {
        place + 1
    }
}
