//! The transmitter's end of a lane.
ghost use Rattle.std.specs.Prelude.{◌≡◌, ◌≢◌, ◌<◌, ◌≤◌, ◌+◌, ◌-◌, ◌*◌, ◌/◌, ◌%◌, ◌^◌, ◌++◌, ◌∷◌, [], ℕ, suc, List, Some, None, get_or, true, false, length, map, take};
ghost use Rattle.jesd_base.specs.Bits.{bits, value};
ghost use Rattle.link_params.specs.declared.fields.Params.{Params as ParamsValue};
ghost use Rattle.link_params.specs.declared.fields.Mode.TheVariants.{B, CCrc, CFec};
ghost use Rattle.link_params.specs.Lanes.{Handed};
ghost use Rattle.link_params.specs.Numbers.{period as period_of};
ghost use Rattle.link_params.specs.Runs.{data_ticks};
ghost use Rattle.fire_fec.specs.Corrects.{payload_bits};
ghost use Rattle.lane_c.specs.Sent.{blocks_of, check, sent_c};
ghost use Rattle.lane_c.specs.kept.Senders.{Follows, FollowsBlock, GoesOn, HasPlace, HasSent, IsReady, MayGoOn, place_after_order};

use block_66b::pack;
use crc12::Crc12;
use fire_fec::parity;
use lane_scramble::Scr58;
use link_params::{Link, Mode, Shape, TxOrder, place_after};
use multiblock::sync_word;
use std::marker::Model;
use std::mem;

/// A transmitter lane: a block of 66 bits a tick (JESD204C.1, 64b/66b link layer: scrambling, block
/// format, sync word and multiblock).
#[derive(Drop)]
pub struct TxLaneC {
    link: Link,
    scrambler: Scr58,
    // The scrambled payloads of the multiblock, as far as they were sent.
    payload: [u64; 32],
    // Its sync word, bit 31 first.
    word: u32,
    next: Option<u32>,
}

impl Model for TxLaneC {
    ghost use Rattle.std.specs.Prelude.{◌≡◌, ◌≢◌, ◌<◌};
    ghost use Rattle.link_params.specs.declared.fields.Mode.TheVariants.{B};
    ghost use Rattle.lane_c.specs.kept.Senders.{Sender, HasPlace};

    ghost Value = { Sender };

    ghost view = { λ s. record {
      params = s.link.params;
      scrambler = s.scrambler;
      payload = s.payload;
      word = s.word;
      next = s.next;
    } };

    ghost invariant = { λ s. (s.link.params.mode ≢ B) × HasPlace s.link.params s.next };
}

impl TxLaneC {
    /// A lane of a link that was just reset.
    pub fn new(link: &Link) -> TxLaneC
        requires mode { link.now.params.mode ≢ B }
        ensures sent { HasSent result link.now.params [] }
        ensures next { result.next ≡ None }
    {
        TxLaneC {
            link: *link,
            scrambler: Scr58::new(),
            payload: [0; 32],
            word: 0,
            next: None,
        }
    }

    /// A reset of the transmitter: the lane is as a new one.
    pub fn clear(&mut self)
        ensures sent { (p : ParamsValue) (handed : List Handed) → HasSent self.old p handed
            → HasSent self.new p [] }
        ensures next { self.new.next ≡ None }
        ensures same { self.new.params ≡ self.old.params }
    {
        *self = TxLaneC::new(&self.link);
    }

    /// The bits of a tick, bit 65 first. `octets` are the eight octets of a block before
    /// scrambling, the first one most significant, and count for nothing where the lane is silent.
    /// The orders follow each other: the lane is silent until the first block, which has place 0,
    /// and each later place is the next one in its extended multiblock.
    pub fn tick(&mut self, order: TxOrder, octets: u64) -> u128
        requires { Follows self.old.next order }
        ensures bits { (p : ParamsValue) (lane : ℕ) (handed : List Handed)
            → HasSent self.old p handed
            → sent_c p lane (handed ++ (record { order = order; octets = octets }) ∷ [])
            ≡ sent_c p lane handed ++ bits 66 result ∷ [] }
        ensures below { result < 2 ^ 66 }
        ensures sent { (p : ParamsValue) (handed : List Handed) → HasSent self.old p handed
            → HasSent self.new p (handed ++ (record { order = order; octets = octets }) ∷ []) }
        ensures next { self.new.next ≡ place_after_order self.old.params order }
        ensures same { self.new.params ≡ self.old.params }
    {
        match order {
            TxOrder::Block { place, first } => self.block(place, first, octets),
            _ => 0,
        }
    }

    /// The bits of a run of ticks, as of so many calls of `tick`: the eight octets in `octets[i]`
    /// give `blocks[i]`, so there are as many blocks as numbers of octets. Blocks go on, and the
    /// next one is at `place`.
    pub fn run(&mut self, place: u32, octets: &[u64], blocks: &mut [u128])
        requires place { self.old.next ≡ Some place }
        requires length { length blocks.old ≡ length octets.now }
        ensures blocks { (p : ParamsValue) (lane : ℕ) (handed : List Handed)
            → HasSent self.old p handed → (n : ℕ) → n ≤ length octets.now
            → sent_c p lane (handed ++ data_ticks p place octets.now n)
            ≡ sent_c p lane handed ++ map (bits 66) (take n blocks.new) }
        ensures below { (i : ℕ) → i < length blocks.new → get_or blocks.new i 0 < 2 ^ 66 }
        ensures sent { (p : ParamsValue) (handed : List Handed) → HasSent self.old p handed
            → HasSent self.new p
            (handed ++ data_ticks p place octets.now (length octets.now)) }
        ensures next { self.new.next
            ≡ Some ((place + length octets.now) % period_of self.old.params) }
        ensures same { self.new.params ≡ self.old.params }
    {
        let period = self.link.shape().period();
        // In a local, so that the loop need not store each tick what stands behind `self`.
        let empty = TxLaneC::new(&self.link);
        let mut own = mem::replace(self, empty);
        let mut at = place;
        for i in 0..octets.len() {
            let order = TxOrder::Block {
                place: at,
                first: false,
            };
            blocks[i] = own.tick(order, octets[i]);
            at = place_after(at, period);
        }
        *self = own;
    }

    // The block of a tick.
    fn block(&mut self, place: u32, first: bool, octets: u64) -> u128
        requires { FollowsBlock self.old.next place first }
        ensures due { (sent : List ℕ) → MayGoOn self.old self.old.params sent self.old.next
            → blocks_of self.old.params (sent ++ octets ∷ [])
            ≡ blocks_of self.old.params sent ++ bits 66 result ∷ [] }
        ensures below { result < 2 ^ 66 }
        ensures goes_on { (sent : List ℕ) → MayGoOn self.old self.old.params sent self.old.next
            → GoesOn self.new self.old.params (sent ++ octets ∷ [])
            (suc place % period_of self.old.params) }
        ensures next { self.new.next ≡ Some (suc place % period_of self.old.params) }
        ensures same { self.new.params ≡ self.old.params }
    {
        let period = period(&self.link.shape());
        if place % 32 == 0 {
            self.begin(place, first, period);
        }
        self.go_on(place, period, octets)
    }

    // A multiblock begins with the block of this place.
    fn begin(&mut self, place: u32, first: bool, period: u32)
        requires follows { FollowsBlock self.old.next place first }
        requires period { period ≡ period_of self.old.params }
        requires place { place < period }
        requires begins { place % 32 ≡ 0 }
        ensures ready { (sent : List ℕ) → MayGoOn self.old self.old.params sent self.old.next
            → IsReady self.new self.old.params sent place }
        ensures same { self.new ≡ record self.old { word = self.new.word } }
    {
        let mode = self.link.shape().params().mode;
        let check = if first {
            0
        } else {
            check_of(mode, &self.payload)
        };
        self.word = sync_word(mode, check, 0, place + 32 == period);
    }

    // The next block of a multiblock.
    fn go_on(&mut self, place: u32, period: u32, octets: u64) -> u128
        requires period { period ≡ period_of self.old.params }
        requires place { place < period }
        requires high { period ≤ 1024 }
        ensures due { (sent : List ℕ) → IsReady self.old self.old.params sent place
            → blocks_of self.old.params (sent ++ octets ∷ [])
            ≡ blocks_of self.old.params sent ++ bits 66 result ∷ [] }
        ensures below { result < 2 ^ 66 }
        ensures goes_on { (sent : List ℕ) → IsReady self.old self.old.params sent place
            → GoesOn self.new self.old.params (sent ++ octets ∷ [])
            (suc place % period_of self.old.params) }
        ensures next { self.new.next ≡ Some (suc place % period_of self.old.params) }
        ensures same { self.new.params ≡ self.old.params }
    {
        let at = place % 32;
        let scrambled = self.scrambler.scramble(octets);
        self.payload[at as usize] = scrambled;
        self.next = Some(place_after(place, period));
        pack(sync_bit(self.word, at), scrambled)
    }
}

// The blocks of an extended multiblock, the link's period in ticks.
pub(crate) fn period(shape: &Shape) -> u32
    requires mode { shape.now.mode ≢ B }
    ensures value { result ≡ period_of shape.now }
    ensures low { 17 ≤ result }
    ensures high { result ≤ 1024 }
{
    32 * shape.params().e
}

// Sync bit `at` of a sync word.
pub(crate) fn sync_bit(word: u32, at: u32) -> bool
    requires { at < 32 }
    ensures { result ≡ get_or (bits 32 word) at false }
{
    (word >> (31 - at)) & 1 == 1
}

// The check of a multiblock's payload.
fn check_of(mode: Mode, payload: &[u64; 32]) -> u32
    requires { mode ≢ B }
    ensures check { result ≡ value (check mode (payload_bits payload.now)) }
    ensures crc { mode ≡ CCrc → result < 2 ^ 12 }
    ensures fec { mode ≡ CFec → result < 2 ^ 26 }
{
    match mode {
        Mode::CFec => parity(payload),
        _ => crc(payload),
    }
}

// Its CRC-12.
pub(crate) fn crc(payload: &[u64; 32]) -> u32
    ensures check { result ≡ value (check CCrc (payload_bits payload.now)) }
    ensures below { result < 2 ^ 12 }
{
    let mut crc = Crc12::new();
    for block in payload {
        crc.push64(*block);
    }
    u32::from(crc.value())
}
