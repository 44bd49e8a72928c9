//! The transmitter's end of a lane.
ghost use Rattle.std.specs.Prelude.{◌≡◌, ◌<◌, ◌≤◌, ◌+◌, ◌%◌, ◌++◌, ◌∷◌, [], ℕ, suc, if◌then◌else◌, List, Some, length, get_or, take};
ghost use Rattle.link_params.specs.declared.fields.Params.{Params as ParamsValue};
ghost use Rattle.link_params.specs.declared.fields.Mode.TheVariants.{B};
ghost use Rattle.link_params.specs.Lanes.{Handed};
ghost use Rattle.link_params.specs.Numbers.{period};
ghost use Rattle.link_params.specs.Runs.{data_ticks};
ghost use Rattle.lane_b.specs.Sent.{char_of, coded_octets, data_char, data_octets, sent_words};
ghost use Rattle.lane_b.specs.kept.Senders.{Follows, FollowsData, GoesOn, HasSent, HasSpellings, IsSameLink, MayGoOn, ScramblesSo, place_after_order};

use char_replace::Replace;
use code_8b10b::{Char, K28_5, Rd, encode};
use ilas::ilas_char;
use lane_scramble::Scr15;
use link_params::{Link, TxOrder, place_after};
use std::marker::Model;
use std::mem;

/// A transmitter lane: ten bits a tick.
#[derive(Drop)]
pub struct TxLaneB {
    link: Link,
    lane: u32,
    rd: Rd,
    replace: Replace,
    scrambler: Scr15,
    next: Option<u32>,
}

impl Model for TxLaneB {
    ghost use Rattle.std.specs.Prelude.{◌≡◌, ◌<◌};
    ghost use Rattle.link_params.specs.declared.fields.Mode.TheVariants.{B};
    ghost use Rattle.lane_b.specs.kept.Senders.{Sender, HasPlace};

    ghost Value = { Sender };

    ghost view = { λ s. record { params = s.link.params; lane = s.lane; rd = s.rd; replace = s.replace; scrambler = s.scrambler; next = s.next } };

    ghost invariant = { λ s. (s.link.params.mode ≡ B) × (s.lane < s.link.params.l) × HasPlace s.link.params s.replace s.next };
}

impl TxLaneB {
    /// A lane of a link that was just reset: its disparity is negative.
    pub fn new(link: &Link, lane: u32) -> TxLaneB
        requires mode { link.now.params.mode ≡ B }
        requires lane { lane < link.now.params.l }
        ensures sent { HasSent result link.now.params lane [] }
        ensures next { result.next ≡ None }
    {
        TxLaneB {
            link: *link,
            lane,
            rd: Rd::Minus,
            replace: Replace::new(&link.shape()),
            scrambler: Scr15::new(),
            next: None,
        }
    }

    /// A reset of the transmitter.
    pub fn clear(&mut self)
        ensures sent { (p : ParamsValue) (lane : ℕ) (handed : List Handed) → HasSent self.old p lane handed → HasSent self.new p lane [] }
        ensures next { self.new.next ≡ None }
        ensures same { self.new.params ≡ self.old.params }
    {
        *self = TxLaneB::new(&self.link, self.lane);
    }

    /// The word of a tick, bit 9 first. `octet` is the data octet before scrambling, and counts for nothing with other
    /// orders. The orders follow each other: data begins with `first` and place 0, and each later place is the next one in its
    /// multiframe.
    pub fn tick(&mut self, order: TxOrder, octet: u8) -> u16
        requires { Follows self.old.params self.old.next order }
        ensures word { (p : ParamsValue) (lane : ℕ) (handed : List Handed) → HasSent self.old p lane handed
            → sent_words p lane (handed ++ (record { order = order; octets = octet }) ∷ []) ≡ sent_words p lane handed ++ result ∷ [] }
        ensures below { result < 1024 }
        ensures sent { (p : ParamsValue) (lane : ℕ) (handed : List Handed) → HasSent self.old p lane handed
            → HasSent self.new p lane (handed ++ (record { order = order; octets = octet }) ∷ []) }
        ensures next { self.new.next ≡ place_after_order self.old.params order }
        ensures same { self.new.params ≡ self.old.params }
    {
        let c = self.character(order, octet);
        match encode(self.rd, c) {
            Some((word, rd)) => {
                self.rd = rd;
                word
            }
            None => unreachable!(),
        }
    }

    /// The words of a run of ticks of data, as of so many calls of `tick`: the octet `octets[i]`
    /// gives `words[i]`, so there are as many words as octets. Data goes on, and its next octet is
    /// at `place`.
    pub fn run(&mut self, place: u32, octets: &[u8], words: &mut [u16])
        requires place { self.old.next ≡ Some place }
        requires length { length words.old ≡ length octets.now }
        ensures words { (p : ParamsValue) (lane : ℕ) (handed : List Handed)
            → HasSent self.old p lane handed → (n : ℕ) → n ≤ length octets.now
            → sent_words p lane (handed ++ data_ticks p place octets.now n)
            ≡ sent_words p lane handed ++ take n words.new }
        ensures below { (i : ℕ) → i < length words.new → get_or words.new i 0 < 1024 }
        ensures sent { (p : ParamsValue) (lane : ℕ) (handed : List Handed)
            → HasSent self.old p lane handed → HasSent self.new p lane
            (handed ++ data_ticks p place octets.now (length octets.now)) }
        ensures next { self.new.next
            ≡ Some ((place + length octets.now) % period self.old.params) }
        ensures same { self.new.params ≡ self.old.params }
    {
        let period = self.link.shape().period();
        // In a local, so that the loop need not store each tick what stands behind `self`.
        let empty = TxLaneB::new(&self.link, self.lane);
        let mut own = mem::replace(self, empty);
        let mut at = place;
        for i in 0..octets.len() {
            let order = TxOrder::Data {
                place: at,
                first: false,
            };
            words[i] = own.tick(order, octets[i]);
            at = place_after(at, period);
        }
        *self = own;
    }

    // The character of a tick.
    fn character(&mut self, order: TxOrder, octet: u8) -> Char
        requires { Follows self.old.params self.old.next order }
        ensures due { (p : ParamsValue) (lane : ℕ) (handed : List Handed) → HasSent self.old p lane handed
            → result ≡ char_of p lane (handed ++ (record { order = order; octets = octet }) ∷ []) order }
        ensures goes_on { (p : ParamsValue) (lane : ℕ) (handed : List Handed) → HasSent self.old p lane handed
            → MayGoOn self.new p (data_octets [] (handed ++ (record { order = order; octets = octet }) ∷ [])) self.new.next }
        ensures spelled { HasSpellings result }
        ensures next { self.new.next ≡ place_after_order self.old.params order }
        ensures same { IsSameLink self.old self.new }
    {
        match order {
            TxOrder::Data { place, first } => self.data(place, first, octet),
            TxOrder::Ilas(place) => {
                self.next = None;
                ilas_char(&self.link, self.lane, place)
            }
            _ => {
                self.next = None;
                Char::Control(K28_5)
            }
        }
    }

    // The character of a data octet.
    fn data(&mut self, place: u32, first: bool, octet: u8) -> Char
        requires { FollowsData self.old.next place first }
        ensures due { (octets : List ℕ) → MayGoOn self.old self.old.params octets self.old.next
            → result ≡ data_char self.old.params (if first then octet ∷ [] else octets ++ octet ∷ []) }
        ensures goes_on { (octets : List ℕ) → MayGoOn self.old self.old.params octets self.old.next
            → MayGoOn self.new self.old.params (if first then octet ∷ [] else octets ++ octet ∷ []) self.new.next }
        ensures spelled { HasSpellings result }
        ensures next { self.new.next ≡ Some (suc place % period self.old.params) }
        ensures same { IsSameLink self.old self.new }
    {
        if first {
            self.begin();
        }
        self.go_on(place, octet)
    }

    // Data begins: its first octet has place 0.
    fn begin(&mut self)
        ensures begun { GoesOn self.new self.old.params [] 0 }
        ensures next { self.new.next ≡ Some 0 }
        ensures same { IsSameLink self.old self.new }
    {
        self.replace = Replace::new(&self.link.shape());
        self.scrambler = Scr15::new();
        self.next = Some(0);
    }

    // The character of the next data octet.
    fn go_on(&mut self, place: u32, octet: u8) -> Char
        requires { self.old.next ≡ Some place }
        ensures due { (octets : List ℕ) → GoesOn self.old self.old.params octets place
            → result ≡ data_char self.old.params (octets ++ octet ∷ []) }
        ensures goes_on { (octets : List ℕ) → GoesOn self.old self.old.params octets place
            → GoesOn self.new self.old.params (octets ++ octet ∷ []) (suc place % period self.old.params) }
        ensures spelled { HasSpellings result }
        ensures next { self.new.next ≡ Some (suc place % period self.old.params) }
        ensures same { IsSameLink self.old self.new }
    {
        let next = place_after(place, self.link.shape().period());
        let coded = self.coded(octet);
        self.next = Some(next);
        self.replace.push(place, coded)
    }

    // The octet that goes into a character: scrambled where the link is.
    fn coded(&mut self, octet: u8) -> u8
        ensures coded { (octets : List ℕ) → ScramblesSo self.old self.old.params octets
            → coded_octets self.old.params (octets ++ octet ∷ []) ≡ coded_octets self.old.params octets ++ result ∷ [] }
        ensures stands { (octets : List ℕ) → ScramblesSo self.old self.old.params octets
            → ScramblesSo self.new self.old.params (octets ++ octet ∷ []) }
        ensures same { self.new ≡ record self.old { scrambler = self.new.scrambler } }
    {
        if self.link.shape().params().scr {
            self.scrambler.scramble(octet)
        } else {
            octet
        }
    }
}
