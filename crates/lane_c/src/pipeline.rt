//! The blocks that wait for their check.
ghost use Rattle.std.specs.Prelude.{◌≡◌, ◌≢◌, ◌<◌, ◌^◌, ◌+◌, ◌++◌, ◌∷◌, [], ◌==◌, ◌&&◌, ◌*◌, ◌-◌, ◌/◌, ◌%◌, ◌≤◌, if◌then◌else◌, not, Some, None, ℕ, Bool, List, drop, get_or, length, map};
ghost use Rattle.jesd_base.specs.Bits.{bits, value};
ghost use Rattle.link_params.specs.declared.fields.Mode.TheVariants.{B};
ghost use Rattle.block_66b.specs.Blocks.{header};
ghost use Rattle.fire_fec.specs.Corrects.{payload_bits};
ghost use Rattle.lane_scramble.specs.kept.Scramblers.{HasDescrambled58};
ghost use Rattle.multiblock.specs.SyncWords.{is_check, sync_form};
ghost use Rattle.lane_c.specs.Loss.{is_misplaced};
ghost use Rattle.lane_c.specs.Received.{cell};
ghost use Rattle.lane_c.specs.Statuses.{Checked, Judged as JudgedBlock, checked, judged};
ghost use Rattle.link_params.specs.declared.fields.Params.{Params as ParamsValue};
ghost use Rattle.multiblock.specs.Places.{Place as PlaceValue, pattern_size};
ghost use Rattle.lane_c.specs.kept.Receivers.{AreJudged, HasCome, HasLeft, HasMore, HasPiped, block_of, blocks_in, cell_now, check_size};

use crate::sender::{crc, sync_bit};
use block_66b::SyncBit;
use fire_fec::{Fix, correct_uncounted};
use lane_scramble::Scr58;
use link_params::{LaneCell, Mark, Mode};
use multiblock::read_sync;

// The 32 blocks of a multiblock as they came, or the first of them.
#[derive(Clone, Copy)]
struct Multiblock {
    // The sync bits and the bad headers, the latest the lowest.
    word: u32,
    bad: u32,
    payload: [u64; 32],
}

// The blocks of a multiblock after its check.
#[derive(Clone, Copy)]
struct Judged {
    mark: Mark,
    bad: u32,
    payload: [u64; 32],
}

/// The multiblock that arrives, the whole one before it, which waits for its check, and the one
/// before that, which leaves.
#[derive(Drop)]
pub(crate) struct Pipeline {
    arriving: Multiblock,
    waiting: Multiblock,
    leaving: Judged,
    scrambler: Scr58,
    // The status of the block that left last.
    before: Mark,
}

impl Pipeline {
    pub(crate) fn new() -> Pipeline
        ensures { HasDescrambled58 result.scrambler [] }
    {
        let none = Multiblock {
            word: 0,
            bad: 0,
            payload: [0; 32],
        };
        Pipeline {
            arriving: none,
            waiting: none,
            leaving: Judged {
                mark: Mark::Bad,
                bad: 0,
                payload: [0; 32],
            },
            scrambler: Scr58::new(),
            before: Mark::Bad,
        }
    }

    /// A block leaves, and one with the same number in its multiblock arrives: the cell of the
    /// former, and where the latter is the last of its multiblock, whether that is misplaced; `end`
    /// says whether it is to end an extended one.
    pub(crate) fn step(
        &mut self,
        mode: Mode,
        at: u32,
        end: bool,
        sync: SyncBit,
        payload: u64,
    ) -> (LaneCell, Option<bool>)
        requires at { at < 32 }
        requires mode { mode ≢ B }
        ensures piped { (p : ParamsValue) (x : PlaceValue) (bs later : List Bool) (blocks : ℕ)
            (block : List Bool) → HasPiped self.old p x bs blocks
            → mode ≡ p.mode → at ≡ blocks % 32
            → HasMore x bs later (32 * pattern_size p.e + blocks) block
            → sync ≡ header block → bits 64 payload ≡ drop 2 block
            → HasPiped self.new p x later (blocks + 1) }
        ensures cell { (p : ParamsValue) (x : PlaceValue) (bs : List Bool) (blocks : ℕ)
            → HasPiped self.old p x bs blocks → 65 ≤ blocks → at ≡ blocks % 32
            → result.0 ≡ cell_now p x bs blocks }
        ensures ended { (p : ParamsValue) (x : PlaceValue) (bs later : List Bool) (blocks : ℕ)
            (block : List Bool) → HasPiped self.old p x bs blocks
            → at ≡ blocks % 32 → HasMore x bs later (32 * pattern_size p.e + blocks) block
            → sync ≡ header block → bits 64 payload ≡ drop 2 block
            → result.1 ≡ (if at == 31 then Some (is_misplaced end
            (map header (blocks_in x later (pattern_size p.e + blocks / 32))))
            else None) }
    {
        let cell = self.leave(at);
        self.arrive(at, sync, payload);
        if at < 31 {
            return (cell, None);
        }
        let misplaced = self.is_misplaced(end);
        self.turn(mode);
        (cell, Some(misplaced))
    }

    // The block with this number in its multiblock leaves, 64 ticks after it arrived.
    fn leave(&mut self, at: u32) -> LaneCell
        requires { at < 32 }
        ensures left { (earlier : List Bool) (blocks : List JudgedBlock)
            → HasDescrambled58 self.old.scrambler earlier → AreJudged self.old.leaving blocks
            → HasLeft self.new (block_of blocks at) }
        ensures cell { (before : JudgedBlock) (blocks : List JudgedBlock) → HasLeft self.old before
            → AreJudged self.old.leaving blocks
            → result ≡ cell before (block_of blocks at) }
        ensures stands { (earlier : List Bool) → HasDescrambled58 self.old.scrambler earlier
            → HasDescrambled58 self.new.scrambler
            (earlier ++ bits 64 (get_or self.old.leaving.payload at 0)) }
        ensures same { self.new ≡ record self.old {
          scrambler = self.new.scrambler;
          before = self.new.before;
        } }
    {
        let own = self.leaving.status(at);
        let value = self.scrambler.descramble(self.leaving.payload[at as usize]);
        let mark = own.worse(self.before);
        self.before = own;
        LaneCell { value, mark }
    }

    // A block arrives.
    fn arrive(&mut self, at: u32, sync: SyncBit, payload: u64)
        requires { at < 32 }
        ensures come { (blocks : List (List Bool)) (block : List Bool)
            → HasCome self.old.arriving blocks → length blocks ≡ at
            → sync ≡ header block → bits 64 payload ≡ drop 2 block
            → HasCome self.new.arriving (blocks ++ block ∷ []) }
        ensures same { self.new ≡ record self.old { arriving = self.new.arriving } }
    {
        self.arriving.word = with_bit(self.arriving.word, sync == SyncBit::One);
        self.arriving.bad = with_bit(self.arriving.bad, sync == SyncBit::Bad);
        self.arriving.payload[at as usize] = payload;
    }

    // The multiblock that arrived is whole: its sync word carries the check of the one before it.
    // It stands apart since most blocks end no multiblock.
    #[inline(never)]
    fn turn(&mut self, mode: Mode)
        requires { mode ≢ B }
        ensures judged { (blocks next : List (List Bool)) → length blocks ≡ 32 → length next ≡ 32
            → HasCome self.old.waiting blocks → HasCome self.old.arriving next
            → AreJudged self.new.leaving (judged mode blocks next) }
        ensures waiting { self.new.waiting ≡ self.old.arriving }
        ensures same { self.new ≡ record self.old {
          waiting = self.new.waiting;
          leaving = self.new.leaving;
        } }
    {
        self.leaving = judge(mode, &self.waiting, &self.arriving);
        self.waiting = self.arriving;
    }

    // The end bit or the last five sync bits of the multiblock that is whole are not those of its
    // place, or have a bad header.
    fn is_misplaced(&self, end: bool) -> bool
        ensures { (blocks : List (List Bool)) → length blocks ≡ 32
            → HasCome self.now.arriving blocks → result ≡ is_misplaced end (map header blocks) }
    {
        let word = self.arriving.word;
        let bad = self.arriving.bad;
        let end_is_bad = sync_bit(bad, 22);
        let found_end = sync_bit(word, 22);
        let last_bad = last_five(bad);
        let last = last_five(word);
        !is_in_place(end_is_bad, found_end == end, last_bad, last)
    }
}

impl Judged {
    // The status of the block with this number.
    fn status(&self, at: u32) -> Mark
        requires { at < 32 }
        ensures { (blocks : List JudgedBlock) → AreJudged self.now blocks
            → result ≡ (block_of blocks at).status }
    {
        if sync_bit(self.bad, at) {
            Mark::Bad
        } else {
            self.mark
        }
    }
}

// The end bit is good and the one of its place, and the last five sync bits are good and the pilot.
fn is_in_place(end_is_bad: bool, has_end: bool, last_bad: u32, last: u32) -> bool
    ensures { result ≡ ((not end_is_bad && has_end) && ((last_bad == 0) && (last == 1))) }
{
    !end_is_bad && has_end && last_bad == 0 && last == 1
}

// A bit more, the lowest.
fn with_bit(word: u32, bit: bool) -> u32
    ensures { (n : ℕ) → n < 32 → bits (n + 1) result ≡ bits n word ++ bit ∷ [] }
{
    (word << 1) | u32::from(bit)
}

// The last five bits.
fn last_five(word: u32) -> u32
    ensures { result ≡ value (drop 27 (bits 32 word)) }
{
    word & 0x1F
}

// A multiblock has 32 blocks.
fn has_blocks(payload: &[u64; 32])
    ensures { length payload.now ≡ 32 }
{
    let _ = payload[0];
}

// The blocks of a multiblock, by the next one.
fn judge(mode: Mode, multiblock: &Multiblock, next: &Multiblock) -> Judged
    requires { mode ≢ B }
    ensures { (blocks after : List (List Bool)) → length blocks ≡ 32 → length after ≡ 32
        → HasCome multiblock.now blocks → HasCome next.now after
        → AreJudged result (judged mode blocks after) }
{
    has_blocks(&multiblock.payload);
    let mut payload = multiblock.payload;
    let bad = multiblock.bad;
    if next.bad & carriers(mode) != 0 {
        return Judged {
            mark: Mark::Bad,
            bad,
            payload,
        };
    }
    let mark = checked(mode, &mut payload, read_sync(mode, next.word).check);
    Judged { mark, bad, payload }
}

// The headers that carry the check.
fn carriers(mode: Mode) -> u32
    requires { mode ≢ B }
    ensures { bits 32 result ≡ map is_check (sync_form mode) }
{
    match mode {
        Mode::CFec => 0xFFFF_FDE0,
        _ => 0xEEEE_0000,
    }
}

// What a check says of a payload, which is corrected.
fn checked(mode: Mode, payload: &mut [u64; 32], check: u32) -> Mark
    requires mode { mode ≢ B }
    requires check { check < 2 ^ 26 }
    ensures { (c : List Bool) → length c ≡ check_size mode → check ≡ value c
        → checked mode (payload_bits payload.old) c ≡ record {
          mark = result;
          payload =
              payload_bits payload.new;
        } }
{
    match mode {
        Mode::CFec => match correct_uncounted(payload, check) {
            Fix::Whole => Mark::Ok,
            Fix::Fixed { .. } => Mark::Fixed,
            Fix::Uncorrectable => Mark::Bad,
        },
        _ => {
            if crc(payload) == check {
                Mark::Ok
            } else {
                Mark::Bad
            }
        }
    }
}
