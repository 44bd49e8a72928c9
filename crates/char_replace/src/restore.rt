//! The receiver's side (JESD204B.01 clause 5.3.3.4, character replacement).
ghost use Rattle.std.specs.Prelude.{ℕ, ◌≡◌, ◌%◌, ◌++◌, List, [], ◌∷◌, length, true};
ghost use Rattle.link_params.specs.declared.fields.Params.{Params as ParamsValue};
ghost use Rattle.link_params.specs.declared.fields.Mode.TheVariants.{B};
ghost use Rattle.link_params.specs.Numbers.{period};
ghost use Rattle.code_8b10b.specs.declared.character.Reading.{Reading as ReadingValue};
ghost use Rattle.char_replace.specs.declared.restored.Restored.{Restored as RestoredValue};
ghost use Rattle.char_replace.specs.kept.Ends.{HasRestored, accepted_by_kept, given_by_kept, given_of_char};

use crate::places::{is_alignment_of, is_frame_end, is_multiframe_end};
use crate::restored::Restored;
use code_8b10b::{Char, Reading};
use link_params::{Params, Shape};
use std::marker::Model;

/// The octets of a lane's readings. Contracts see its fields; with scrambling nothing is said of the
/// last two.
#[derive(Clone, Copy, Debug)]
pub struct Restore {
    params: Params,
    // Whether a whole frame was read, and what the place that ended the last one gave. With
    // scrambling neither is looked at.
    begun: bool,
    last: Restored,
}

impl Model for Restore {
    ghost use Rattle.char_replace.specs.kept.Ends.{Receiver, IsSerial};

    ghost Value = { Receiver };

    ghost view = { λ s. record { params = s.params; begun = s.begun; last = s.last } };

    ghost invariant = { λ s. IsSerial s.params };

    ghost inverse = { λ v. record { params = v.params; begun = v.begun; last = v.last } };
}

impl Restore {
    /// A lane whose data begins.
    pub fn new(shape: &Shape) -> Restore
        requires { shape.now.mode ≡ B }
        ensures { HasRestored result shape.now [] [] }
    {
        Restore {
            params: shape.params(),
            begun: false,
            last: Restored {
                octet: 0,
                bad: false,
                fault: false,
            },
        }
    }

    /// What the next reading gives, which stands at this place of its multiframe, counted from 0. The octet is the
    /// scrambled one where the link is scrambled.
    pub fn push(&mut self, place: u32, reading: Reading) -> Restored
        ensures { (p : ParamsValue) (readings : List ReadingValue) (given : List RestoredValue) → HasRestored self.old p readings given → place ≡ length readings % period p
            → HasRestored self.new p (readings ++ reading ∷ []) (given ++ result ∷ []) }
    {
        if self.params.scr {
            if let Reading::Char(Char::Data(octet)) = reading {
                return Restored {
                    octet,
                    bad: false,
                    fault: false,
                };
            }
        }
        let end = is_frame_end(&self.params, place);
        let given = self.given(end, is_multiframe_end(&self.params, place), reading);
        if end {
            self.keep(given);
        }
        given
    }

    // A frame ended in this.
    fn keep(&mut self, given: Restored)
        ensures { self.new ≡ record self.old { begun = true; last = given } }
    {
        self.begun = true;
        self.last = given;
    }

    // What a reading gives; `end`: it ends a frame, `whole`: it ends a multiframe.
    fn given(&self, end: bool, whole: bool, reading: Reading) -> Restored
        ensures { result ≡ given_by_kept self.now end whole reading }
    {
        match reading {
            Reading::Char(c) => self.given_of_char(end, whole, false, c),
            Reading::Disparity(c) => self.given_of_char(end, whole, true, c),
            Reading::Invalid => Restored {
                octet: 0,
                bad: true,
                fault: true,
            },
        }
    }

    fn given_of_char(&self, end: bool, whole: bool, fault: bool, c: Char) -> Restored
        ensures { result ≡ given_of_char self.now end whole fault c }
    {
        let octet = match c {
            Char::Data(octet) => {
                return Restored {
                    octet,
                    bad: fault,
                    fault,
                };
            }
            Char::Control(octet) => octet,
        };
        let accepted = self.is_accepted(end, whole, octet);
        if !self.params.scr && accepted {
            return Restored {
                octet: self.last.octet,
                bad: fault || self.last.bad,
                fault,
            };
        }
        let fault = fault || !accepted;
        Restored {
            octet,
            bad: fault,
            fault,
        }
    }

    // Whether a control character is the alignment character of its place.
    fn is_accepted(&self, end: bool, whole: bool, octet: u8) -> bool
        ensures { result ≡ accepted_by_kept self.now end whole octet }
    {
        is_alignment_of(octet, end, whole) && (self.params.scr || self.begun)
    }
}
