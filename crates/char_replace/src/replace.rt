//! The sender's side (JESD204B.01 clause 5.3.3.4, character replacement).
ghost use Rattle.std.specs.Prelude.{ℕ, ◌≡◌, ◌%◌, ◌++◌, List, [], ◌∷◌, length};
ghost use Rattle.link_params.specs.declared.fields.Params.{Params as ParamsValue};
ghost use Rattle.link_params.specs.declared.fields.Mode.TheVariants.{B};
ghost use Rattle.link_params.specs.Numbers.{period};
ghost use Rattle.code_8b10b.specs.declared.character.Char.{Char as CharValue};
ghost use Rattle.char_replace.specs.kept.Ends.{HasReplaced, char_by_kept};

use crate::places::{is_data, is_frame_end, is_multiframe_end};
use code_8b10b::{Char, K28_3, K28_7};
use link_params::{Params, Shape};
use std::marker::Model;

/// The characters of a lane's data octets. Contracts see its fields; with scrambling nothing is said
/// of the last three.
#[derive(Clone, Copy, Debug)]
pub struct Replace {
    params: Params,
    begun: bool,
    last: u8,
    as_data: bool,
}

impl Model for Replace {
    ghost use Rattle.char_replace.specs.kept.Ends.{Sender, IsSerial};

    ghost Value = { Sender };

    ghost view = { λ s. record { params = s.params; begun = s.begun; last = s.last; as_data = s.as_data } };

    ghost invariant = { λ s. IsSerial s.params };

    ghost inverse = { λ v. record { params = v.params; begun = v.begun; last = v.last; as_data = v.as_data } };
}

impl Replace {
    /// A lane whose data begins.
    pub fn new(shape: &Shape) -> Replace
        requires { shape.now.mode ≡ B }
        ensures { HasReplaced result shape.now [] [] }
    {
        Replace {
            params: shape.params(),
            begun: false,
            last: 0,
            as_data: true,
        }
    }

    /// The character of the next octet, which stands at this place of its multiframe, counted from 0. The octet is the
    /// scrambled one where the link is scrambled.
    pub fn push(&mut self, place: u32, octet: u8) -> Char
        ensures { (p : ParamsValue) (octets : List ℕ) (chars : List CharValue) → HasReplaced self.old p octets chars → place ≡ length octets % period p
            → HasReplaced self.new p (octets ++ octet ∷ []) (chars ++ result ∷ []) }
    {
        if self.params.scr && octet != K28_3 && octet != K28_7 {
            return Char::Data(octet);
        }
        if !is_frame_end(&self.params, place) {
            return Char::Data(octet);
        }
        let c = self.at_end(is_multiframe_end(&self.params, place), octet);
        self.begun = true;
        self.last = octet;
        self.as_data = is_data(c);
        c
    }

    // The character of an octet that ends a frame; `whole`: it ends a multiframe.
    fn at_end(&self, whole: bool, octet: u8) -> Char
        ensures { result ≡ char_by_kept self.now whole octet }
    {
        if self.params.scr {
            return match octet {
                K28_3 if whole => Char::Control(K28_3),
                K28_7 if !whole => Char::Control(K28_7),
                _ => Char::Data(octet),
            };
        }
        let alike = self.begun && octet == self.last;
        if whole && alike {
            Char::Control(K28_3)
        } else if !whole && alike && self.as_data {
            Char::Control(K28_7)
        } else {
            Char::Data(octet)
        }
    }
}
