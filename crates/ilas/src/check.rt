//! The check of a received sequence (JESD204B.01 clause 5.3.3.5, initial lane alignment).
ghost use Rattle.std.specs.Prelude.{◌≡◌, ◌≢◌, ℕ, ◌<◌, ◌+◌, ◌*◌, ◌==◌, ◌++◌, if◌then◌else◌, List, [], ◌∷◌};
ghost use Rattle.link_params.specs.declared.fields.Params.{Params};
ghost use Rattle.link_params.specs.declared.fields.Mode.TheVariants.{B};
ghost use Rattle.link_params.specs.declared.ilas_state.IlasState.TheVariants.{Done, Going};
ghost use Rattle.link_params.specs.Numbers.{period};
ghost use Rattle.code_8b10b.specs.declared.character.Reading.{Reading as ReadingValue};
ghost use Rattle.ilas.specs.Checked.{ilas_state, cause_at, config_cause, config_read, difference, fault_or, is_allowed};
ghost use Rattle.ilas.specs.kept.Checks.{HasChecked, has_fault, kept};
ghost use Rattle.code_8b10b.specs.Reads.{octet_of_char, octet_read};

use crate::sequence::ilas_char;
use code_8b10b::{Char, Reading};
use link_params::{IlasCause, IlasState, Link, octet_differs, read_config};
use std::marker::Model;

/// A check of a lane's sequence, one reading at a time. Contracts see it as the lane, the next place, the configuration
/// octets that it read, and its last state.
#[derive(Debug, Drop)]
pub struct IlasCheck {
    link: Link,
    lane: u32,
    place: u32,
    octets: [u8; 14],
    state: IlasState,
}

impl Model for IlasCheck {
    ghost use Rattle.std.specs.Prelude.{◌≡◌, ◌<◌};
    ghost use Rattle.link_params.specs.declared.fields.Mode.TheVariants.{B};
    ghost use Rattle.ilas.specs.kept.Checks.{Checker};

    ghost Value = { Checker };

    ghost view = { λ s. record { params = s.link.params; lane = s.lane; place = s.place; octets = s.octets; state = s.state } };

    ghost invariant = { λ s. (s.link.params.mode ≡ B) × (s.lane < s.link.params.l) };
}

impl IlasCheck {
    /// A check of this lane that has taken no reading.
    pub fn new(link: &Link, lane: u32) -> IlasCheck
        requires mode { link.now.params.mode ≡ B }
        requires lane { lane < link.now.params.l }
        ensures { HasChecked result link.now.params lane [] }
    {
        let _period = link.shape().period();
        IlasCheck {
            link: *link,
            lane,
            place: 0,
            octets: [0; 14],
            state: IlasState::Idle,
        }
    }

    /// Takes the reading of the next place. The first place that breaks a rule gives the fault, and it stays; the last
    /// place of a sequence without a fault gives `Done`, and nothing is said of readings after that.
    pub fn push(&mut self, reading: Reading) -> IlasState
        ensures answer { (p : Params) (lane : ℕ) (readings : List ReadingValue) → HasChecked self.old p lane readings
            → result ≡ ilas_state p lane (readings ++ reading ∷ []) }
        ensures goes_on { (p : Params) (lane : ℕ) (readings : List ReadingValue) → HasChecked self.old p lane readings → result ≢ Done
            → HasChecked self.new p lane (readings ++ reading ∷ []) }
    {
        if is_fault(self.state) {
            return self.state;
        }
        let period = self.link.shape().period();
        let last = 4 * period - 1;
        // The sequence has ended.
        if last < self.place {
            return self.state;
        }
        self.octets = kept(self.octets, self.place, period + 2, reading);
        let cause = cause_at(&self.link, self.lane, self.place, &self.octets, reading);
        self.state = next_state(self.place, last, cause);
        self.place += 1;
        self.state
    }
}

// The configuration octets with the reading of a place; `first` is the place of octet 0.
fn kept(octets: [u8; 14], place: u32, first: u32, reading: Reading) -> [u8; 14]
    requires { first < 2048 }
    ensures { result ≡ kept octets place first reading }
{
    let mut octets = octets;
    if first <= place && place < first + 14 {
        octets[(place - first) as usize] = octet_read(reading);
    }
    octets
}

// The state after a place that breaks no rule, or breaks one.
fn next_state(place: u32, last: u32, cause: Option<IlasCause>) -> IlasState
    ensures { result ≡ fault_or place cause (if place == last then Done else Going) }
{
    match cause {
        Some(cause) => IlasState::Fault { place, cause },
        None if place == last => IlasState::Done,
        None => IlasState::Going,
    }
}

fn is_fault(state: IlasState) -> bool
    ensures { result ≡ has_fault state }
{
    matches!(state, IlasState::Fault { .. })
}

// The octet of a character.
fn octet_of_char(c: Char) -> u8
    ensures { result ≡ octet_of_char c }
{
    match c {
        Char::Data(octet) | Char::Control(octet) => octet,
    }
}

// The octet of a reading; 0 for an invalid one.
fn octet_read(reading: Reading) -> u8
    ensures { result ≡ octet_read reading }
{
    match reading {
        Reading::Char(c) | Reading::Disparity(c) => octet_of_char(c),
        Reading::Invalid => 0,
    }
}

/// Whether the receiver allows `c` where `due` is sent: the same control character, or any data.
pub fn is_allowed(due: Char, c: Char) -> bool
    ensures { result ≡ is_allowed due c }
{
    match (due, c) {
        (Char::Control(due), Char::Control(octet)) => due == octet,
        (Char::Data(_), Char::Data(_)) => true,
        (Char::Control(_), Char::Data(_)) | (Char::Data(_), Char::Control(_)) => false,
    }
}

// Why a reading breaks a rule, where `octets` are the configuration octets up to it.
fn cause_at(
    link: &Link,
    lane: u32,
    place: u32,
    octets: &[u8; 14],
    reading: Reading,
) -> Option<IlasCause>
    requires mode { link.now.params.mode ≡ B }
    requires lane { lane < link.now.params.l }
    requires place { place < 4 * period link.now.params }
    ensures { (readings : List ReadingValue) → (place ≡ period link.now.params + 15 → config_read link.now.params readings ≡ octets.now)
        → result ≡ cause_at link.now.params lane readings place reading }
{
    let Reading::Char(c) = reading else {
        return Some(IlasCause::Code);
    };
    if !is_allowed(ilas_char(link, lane, place), c) {
        return Some(IlasCause::Wrong);
    }
    let first = link.shape().period() + 2;
    if place < first || first + 14 <= place {
        return None;
    }
    config_cause(link, lane, place - first, octets, octet_of_char(c))
}

// What is wrong with configuration octet `index`, where `octets` are those up to it.
fn config_cause(
    link: &Link,
    lane: u32,
    index: u32,
    octets: &[u8; 14],
    octet: u8,
) -> Option<IlasCause>
    requires mode { link.now.params.mode ≡ B }
    requires lane { lane < link.now.params.l }
    requires index { index < 14 }
    ensures { (readings : List ReadingValue) → (index ≡ 13 → config_read link.now.params readings ≡ octets.now)
        → result ≡ config_cause link.now.params lane readings index octet }
{
    if index == 13 {
        return match read_config(octets) {
            Ok(_) => None,
            Err(_) => Some(IlasCause::Fchk),
        };
    }
    if octet_differs(link, lane, index, octet) {
        Some(difference(index, octet))
    } else {
        None
    }
}

// Why configuration octet `index` is not the lane's.
fn difference(index: u32, octet: u8) -> IlasCause
    ensures { result ≡ difference index octet }
{
    if index == 2 {
        IlasCause::LaneId {
            lid: u32::from(octet % 32),
        }
    } else {
        IlasCause::Config
    }
}
