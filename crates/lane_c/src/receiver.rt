//! The receiver's end of a lane.
ghost use Rattle.std.specs.Prelude.{◌≡◌, ◌≢◌, ◌<◌, ◌≤◌, ◌+◌, ◌-◌, ◌++◌, ◌∷◌, [], ◌^◌, ◌==◌, ◌&&◌, ℕ, List, false, true, length, drop, get_or, min, option_map, IfOk, None, Some, ◌%◌, ◌/◌, suc, if◌then◌else◌};
ghost use Rattle.jesd_base.specs.Bits.{bits as bits_of};
ghost use Rattle.link_params.specs.declared.fields.Mode.TheVariants.{B};
ghost use Rattle.link_params.specs.declared.fields.Params.{Params as ParamsValue};
ghost use Rattle.link_params.specs.declared.fields.Timing.{Timing as TimingValue};
ghost use Rattle.link_params.specs.Lanes.{Held as HeldEntry, Placed, Taken};
ghost use Rattle.link_params.specs.Numbers.{depth, period};
ghost use Rattle.link_params.specs.Runs.{word_ticks};
ghost use Rattle.lane_c.specs.Received.{entries_c, report_c, report_of};
ghost use Rattle.lane_c.specs.declared.receiver.Start.{Start as StartValue};
ghost use Rattle.lane_c.specs.declared.receiver.Step.TheVariants.{Keep, Stay};
ghost use Rattle.lane_c.specs.kept.Receivers.{AreBlocks, Does, EndsAt, HasBegun, HasRead, HasTaken, HoldsFirst, Hunts, IsArmedOn, IsHeld, cell_now, is_inside_now, start_at, tick_of};
ghost use Rattle.lane_c.specs.Loss.{is_bad};
ghost use Rattle.lane_c.specs.Locking.{bits_taken};

use crate::loss::Loss;
use crate::pipeline::Pipeline;
use crate::sender::period;
use block_66b::{BitWindow, SyncBit, unpack};
use elastic_buffer::ElasticBuffer;
use jesd_base::NoMemory;
use link_params::{IlasState, LaneCell, LaneReport, Link, Mode, RxOrder, place_after};
use multiblock::{Place, PlaceHunt};
use std::alloc::Global;
use std::marker::Model;

/// A receiver lane: 66 bits a tick, and an elastic buffer of what it read (JESD204C.1, 64b/66b link
/// layer: synchronization, check and descrambling).
#[derive(Drop)]
pub struct RxLaneC {
    link: Link,
    state: State,
    buffer: ElasticBuffer,
}

// Where a lane stands.
#[derive(Drop)]
enum State {
    Hunting(PlaceHunt),
    Held(Held),
}

// What a lane keeps of the blocks since its pattern.
#[derive(Drop)]
struct Held {
    window: BitWindow,
    // How many bits of a tick come after the block that ends in it.
    rest: u8,
    // How many blocks came after the pattern, up to 96.
    after: u32,
    // The place in the extended multiblock of the next block.
    place: u32,
    loss: Loss,
    pipeline: Pipeline,
    start: Option<Start>,
}

#[derive(Drop)]
struct Start {
    // In ticks, as the order of the tick told it.
    offset: u32,
    // Whether the offset is inside the window.
    inside: bool,
}

// What a tick of a lane that holds a place does: nothing more, an entry comes into the buffer, or
// the place is dropped.
enum Step {
    Stay,
    Keep(LaneCell),
    Drop,
}

impl Model for RxLaneC {
    ghost use Rattle.std.specs.Prelude.{◌≡◌, ◌≢◌, ◌<◌, ◌^◌};
    ghost use Rattle.link_params.specs.declared.fields.Mode.TheVariants.{B};
    ghost use Rattle.lane_c.specs.kept.Receivers.{Receiver};

    ghost Value = { Receiver };

    ghost view = { λ s. record {
      params = s.link.params;
      timing = s.link.timing;
      state = s.state;
      buffer = s.buffer;
    } };

    ghost invariant = { λ s. (s.link.params.mode ≢ B) × (0 < s.buffer.depth)
        × (s.buffer.depth < 2 ^ 32) };
}

impl RxLaneC {
    /// A lane whose hunt begins with the next bit. All memory of its buffer is taken here;
    /// `NoMemory` where there is none.
    pub fn open(alloc: Global, link: &Link) -> Result<RxLaneC, NoMemory>
        requires mode { link.now.params.mode ≢ B }
        ensures taken { IfOk result (λ r. (lane : ℕ)
            → HasTaken r link.now.params link.now.timing lane [] 0) }
        ensures depth { IfOk result (λ r. r.buffer.depth ≡ depth link.now.params link.now.timing) }
    {
        Ok(RxLaneC {
            link: *link,
            state: State::Hunting(PlaceHunt::new(link.shape().params().e)),
            buffer: ElasticBuffer::open(alloc, link.depth())?,
        })
    }

    /// Takes the 66 bits of a tick, bit 65 first. An order that begins a hunt empties the lane and
    /// its buffer first. One that begins none is armed where the order before it was, and the
    /// buffer has room for an entry; a lane that has started inside its window then holds one entry
    /// more.
    pub fn take(&mut self, order: &RxOrder, bits: u128)
        requires bits { bits < 2 ^ 66 }
        requires room { order.now.hunt ≡ false
            → length self.old.buffer.cells < self.old.buffer.depth }
        ensures goes_on { (p : ParamsValue) (t : TimingValue) (lane : ℕ) (taken : List Taken)
            (gave : ℕ) → HasTaken self.old p t lane taken gave
            → order.now.hunt ≡ false → IsArmedOn taken order.now
            → HasTaken self.new p t lane (taken ++ tick_of order.now bits ∷ []) gave }
        ensures begins { (p : ParamsValue) (t : TimingValue) (lane : ℕ) (taken : List Taken)
            (gave : ℕ) → HasTaken self.old p t lane taken gave → order.now.hunt ≡ true
            → HasTaken self.new p t lane (tick_of order.now bits ∷ []) 0 }
        ensures grows { (p : ParamsValue) (t : TimingValue) (lane : ℕ) (taken : List Taken)
            (gave : ℕ) → HasTaken self.old p t lane taken gave
            → order.now.hunt ≡ false → IsArmedOn taken order.now
            → is_inside_now p t lane taken ≡ true
            → length self.new.buffer.cells ≡ suc (length self.old.buffer.cells) }
        ensures depth { self.new.buffer.depth ≡ self.old.buffer.depth }
    {
        if order.hunt {
            self.begin();
        }
        self.tick(order, bits);
    }

    /// Takes the bits of a run of ticks in which no hunt begins, as so many calls of `take`.
    /// `order` is that of the first tick, and is armed where the order before it was; each later
    /// one has the next offset, which goes round in the link's period. The buffer has room for an
    /// entry of each tick, even where the lane has not started. A lane that has started inside its
    /// window then holds as many entries more as ticks were taken.
    pub fn run(&mut self, order: &RxOrder, blocks: &[u128])
        requires hunt { order.now.hunt ≡ false }
        requires offset { order.now.offset < period self.old.params }
        requires bits { (i : ℕ) → i < length blocks.now → get_or blocks.now i 0 < 2 ^ 66 }
        requires room { length self.old.buffer.cells + length blocks.now
            ≤ self.old.buffer.depth }
        ensures goes_on { (p : ParamsValue) (t : TimingValue) (lane : ℕ) (taken : List Taken)
            (gave : ℕ) → HasTaken self.old p t lane taken gave → IsArmedOn taken order.now
            → HasTaken self.new p t lane
            (taken ++ word_ticks 66 order.now (period p) blocks.now (length blocks.now)) gave }
        ensures grows { (p : ParamsValue) (t : TimingValue) (lane : ℕ) (taken : List Taken)
            (gave : ℕ) → HasTaken self.old p t lane taken gave → IsArmedOn taken order.now
            → is_inside_now p t lane taken ≡ true
            → length self.new.buffer.cells ≡ length self.old.buffer.cells + length blocks.now }
        ensures depth { self.new.buffer.depth ≡ self.old.buffer.depth }
    {
        let period = self.period();
        let mut now = *order;
        for i in 0..blocks.len() {
            self.tick(&now, blocks[i]);
            now.offset = place_after(now.offset, period);
        }
    }

    /// As `run`, but only up to the first tick after which the lane's report is another than
    /// before. Gives how many ticks were taken. Where all were taken, the report after the last tick
    /// may be another too.
    pub fn run_to_change(&mut self, order: &RxOrder, blocks: &[u128]) -> usize
        requires hunt { order.now.hunt ≡ false }
        requires offset { order.now.offset < period self.old.params }
        requires bits { (i : ℕ) → i < length blocks.now → get_or blocks.now i 0 < 2 ^ 66 }
        requires room { length self.old.buffer.cells + length blocks.now
            ≤ self.old.buffer.depth }
        ensures within { result ≤ length blocks.now }
        ensures alike { (p : ParamsValue) (t : TimingValue) (lane : ℕ) (taken : List Taken)
            (gave : ℕ) → HasTaken self.old p t lane taken gave → IsArmedOn taken order.now
            → (n : ℕ) → n < result
            → report_c p t lane (taken ++ word_ticks 66 order.now (period p) blocks.now n)
            ≡ report_c p t lane taken }
        ensures change { (p : ParamsValue) (t : TimingValue) (lane : ℕ) (taken : List Taken)
            (gave : ℕ) → HasTaken self.old p t lane taken gave → IsArmedOn taken order.now
            → result < length blocks.now
            → report_c p t lane (taken ++ word_ticks 66 order.now (period p) blocks.now result)
            ≢ report_c p t lane taken }
        ensures goes_on { (p : ParamsValue) (t : TimingValue) (lane : ℕ) (taken : List Taken)
            (gave : ℕ) → HasTaken self.old p t lane taken gave → IsArmedOn taken order.now
            → HasTaken self.new p t lane
            (taken ++ word_ticks 66 order.now (period p) blocks.now result) gave }
        ensures grows { (p : ParamsValue) (t : TimingValue) (lane : ℕ) (taken : List Taken)
            (gave : ℕ) → HasTaken self.old p t lane taken gave → IsArmedOn taken order.now
            → is_inside_now p t lane taken ≡ true
            → length self.new.buffer.cells ≡ length self.old.buffer.cells + result }
        ensures depth { self.new.buffer.depth ≡ self.old.buffer.depth }
    {
        let before = self.report();
        let period = self.period();
        let mut next = *order;
        for i in 0..blocks.len() {
            self.tick(&next, blocks[i]);
            if !before.is_same(&self.report()) {
                return i + 1;
            }
            next.offset = place_after(next.offset, period);
        }
        blocks.len()
    }

    // The link's period in ticks.
    pub(crate) fn period(&self) -> u32
        ensures { result ≡ period self.now.params }
    {
        self.link.shape().period()
    }

    // A hunt begins: nothing was taken yet. It stands apart since a hunt takes 16 KB.
    #[inline(never)]
    fn begin(&mut self)
        ensures begins { (p : ParamsValue) (t : TimingValue) (lane : ℕ) (taken : List Taken)
            (gave : ℕ) → HasTaken self.old p t lane taken gave
            → HasTaken self.new p t lane [] 0 }
        ensures room { length self.new.buffer.cells < self.new.buffer.depth }
        ensures depth { self.new.buffer.depth ≡ self.old.buffer.depth }
    {
        self.state = State::Hunting(PlaceHunt::new(self.link.shape().params().e));
        self.buffer.clear();
    }

    // The bits of a tick.
    fn tick(&mut self, order: &RxOrder, bits: u128)
        requires bits { bits < 2 ^ 66 }
        requires room { length self.old.buffer.cells < self.old.buffer.depth }
        ensures goes_on { (p : ParamsValue) (t : TimingValue) (lane : ℕ) (taken : List Taken)
            (gave : ℕ) → HasTaken self.old p t lane taken gave
            → IsArmedOn taken order.now
            → HasTaken self.new p t lane (taken ++ tick_of order.now bits ∷ []) gave }
        ensures grows { (p : ParamsValue) (t : TimingValue) (lane : ℕ) (taken : List Taken)
            (gave : ℕ) → HasTaken self.old p t lane taken gave
            → IsArmedOn taken order.now → is_inside_now p t lane taken ≡ true
            → (length self.new.buffer.cells ≡ suc (length self.old.buffer.cells))
            × (is_inside_now p t lane (taken ++ tick_of order.now bits ∷ []) ≡ true) }
        ensures depth { self.new.buffer.depth ≡ self.old.buffer.depth }
        ensures most { length self.new.buffer.cells ≤ length self.old.buffer.cells + 1 }
    {
        match &mut self.state {
            State::Hunting(hunt) => {
                if let Some(place) = hunt.push(bits) {
                    self.hold(&place, bits);
                }
            }
            State::Held(held) => match held.take(&self.link, order, bits) {
                Step::Stay => {}
                Step::Keep(cell) => self.buffer.push(cell),
                Step::Drop => {
                    let rest = held.rest % 66;
                    self.hunt_on(bits, rest);
                }
            },
        }
    }

    // The place was completed in the tick with these bits.
    #[inline(never)]
    fn hold(&mut self, place: &Place, bits: u128)
        requires bits { bits < 2 ^ 66 }
        requires rest { place.now.rest < 66 }
        ensures held { HoldsFirst self.new.state self.old.params.e place.now (bits_of 66 bits) }
        ensures some { 1 ≤ self.old.params.e }
        ensures same { self.new ≡ record self.old { state = self.new.state } }
    {
        let e = self.link.shape().params().e;
        self.state = State::Held(Held::after(e, place, bits));
    }

    // The place is dropped: the hunt goes on with the last `rest` bits of the tick.
    #[inline(never)]
    fn hunt_on(&mut self, bits: u128, rest: u8)
        requires bits { bits < 2 ^ 66 }
        requires rest { rest < 66 }
        ensures hunts { Hunts self.new.state self.old.params.e
            (drop (66 - rest) (bits_of 66 bits)) }
        ensures same { self.new ≡ record self.old { state = self.new.state } }
    {
        let e = self.link.shape().params().e;
        self.state = State::Hunting(PlaceHunt::resume(e, bits, rest));
    }

    /// What the lane reports after the ticks so far. `ilas` is always `Idle`.
    pub fn report(&self) -> LaneReport
        ensures { (p : ParamsValue) (t : TimingValue) (lane : ℕ) (taken : List Taken) (gave : ℕ)
            → HasTaken self.now p t lane taken gave → result ≡ report_c p t lane taken }
    {
        match &self.state {
            State::Hunting(_) => LaneReport {
                locked: false,
                started: None,
                lost: false,
                ilas: IlasState::Idle,
            },
            State::Held(held) => held.report(),
        }
    }

    /// The number of entries in the buffer.
    pub fn held(&self) -> u32
        ensures entries { (p : ParamsValue) (t : TimingValue) (lane : ℕ) (taken : List Taken)
            (gave : ℕ) → HasTaken self.now p t lane taken gave
            → result ≡ length (entries_c p t lane taken) - gave }
        ensures count { result ≡ length self.now.buffer.cells }
    {
        self.buffer.len()
    }

    /// Gives the oldest entry: the eight octets of a block, the first one most significant, and
    /// their mark. There must be one.
    pub fn give(&mut self) -> LaneCell
        requires { 0 < length self.old.buffer.cells }
        ensures entry { (p : ParamsValue) (t : TimingValue) (lane : ℕ) (taken : List Taken)
            (gave : ℕ) → HasTaken self.old p t lane taken gave
            → HeldEntry result ≡ get_or (entries_c p t lane taken) gave Placed }
        ensures goes_on { (p : ParamsValue) (t : TimingValue) (lane : ℕ) (taken : List Taken)
            (gave : ℕ) → HasTaken self.old p t lane taken gave
            → HasTaken self.new p t lane taken (gave + 1) }
        ensures depth { self.new.buffer.depth ≡ self.old.buffer.depth }
    {
        self.buffer.pop()
    }
}

impl Held {
    // The place was completed in the tick with these bits.
    fn after(e: u32, place: &Place, bits: u128) -> Held
        requires bits { bits < 2 ^ 66 }
        requires rest { place.now.rest < 66 }
        requires low { 1 ≤ e }
        requires high { e ≤ 32 }
        ensures { HasBegun result e place.now (bits_of 66 bits) }
    {
        let rest = place.rest;
        let mut window = BitWindow::new(rest);
        let _ = window.push(bits);
        Held {
            window,
            rest,
            after: 0,
            place: place.next,
            loss: Loss::new(e),
            pipeline: Pipeline::new(),
            start: None,
        }
    }

    // The block of a tick.
    fn take(&mut self, link: &Link, order: &RxOrder, bits: u128) -> Step
        requires bits { bits < 2 ^ 66 }
        requires mode { link.now.params.mode ≢ B }
        ensures { (p : ParamsValue) (t : TimingValue) (lane : ℕ) (taken : List Taken)
            → IsHeld self.old p t taken → AreBlocks taken
            → link.now.params ≡ p → link.now.timing ≡ t → IsArmedOn taken order.now
            → Does result self.new p t lane taken (tick_of order.now bits) }
    {
        let shape = link.shape();
        let params = shape.params();
        let period = period(&shape);
        let first = leaves_first(self.place, params.e);
        let end = self.place == period - 1;
        let (cell, newly_lost) = self.read(params.mode, self.place % 32, end, bits);
        self.place = place_after(self.place, period);
        self.after = counted(self.after);
        if newly_lost && !order.armed {
            return Step::Drop;
        }
        self.begin(link, order, first);
        self.step(cell)
    }

    // The block that ends in a tick, which has this number in its multiblock: the cell of the block
    // that leaves, and whether the lane is lost only now. `end` says whether the multiblock ends an
    // extended one.
    fn read(&mut self, mode: Mode, at: u32, end: bool, bits: u128) -> (LaneCell, bool)
        requires bits { bits < 2 ^ 66 }
        requires at { at < 32 }
        requires mode { mode ≢ B }
        ensures read { (p : ParamsValue) (t : TimingValue) (taken : List Taken) (x : Taken)
            (h : IsHeld self.old p t taken) → x.word ≡ bits_of 66 bits → mode ≡ p.mode
            → at ≡ h.blocks % 32 → EndsAt p h.at h.blocks end
            → HasRead self.new p (taken ++ x ∷ []) h.at (suc h.blocks) }
        ensures lost { (p : ParamsValue) (t : TimingValue) (taken : List Taken) (x : Taken)
            (h : IsHeld self.old p t taken) → x.word ≡ bits_of 66 bits → mode ≡ p.mode
            → at ≡ h.blocks % 32 → EndsAt p h.at h.blocks end
            → result.1 ≡ (if self.old.loss.lost then false else self.new.loss.lost) }
        ensures cell { (p : ParamsValue) (t : TimingValue) (taken : List Taken)
            (h : IsHeld self.old p t taken) → 65 ≤ h.blocks → at ≡ h.blocks % 32
            → result.0 ≡ cell_now p h.at (bits_taken taken) h.blocks }
        ensures same { self.new ≡ record self.old {
          window = self.new.window;
          loss = self.new.loss;
          pipeline = self.new.pipeline;
        } }
    {
        let (sync, payload) = unpack(self.window.push(bits));
        let (cell, ended) = self.pipeline.step(mode, at, end, sync, payload);
        let newly_lost = self.loss.push(is_bad(sync), ended);
        (cell, newly_lost)
    }

    // The lane starts where the first block of an extended multiblock leaves, armed and locked.
    fn begin(&mut self, link: &Link, order: &RxOrder, first: bool)
        ensures stays { (s : StartValue) → self.old.start ≡ Some s → self.new.start ≡ Some s }
        ensures begins { self.old.start ≡ None
            → (first && ((self.old.after == 96) && order.now.armed)) ≡ true
            → self.new.start ≡ Some (start_at link.now.timing order.now.offset) }
        ensures waits { self.old.start ≡ None
            → (first && ((self.old.after == 96) && order.now.armed)) ≡ false
            → self.new.start ≡ None }
        ensures same { self.new ≡ record self.old { start = self.new.start } }
    {
        if first && self.after == 96 && order.armed && self.start.is_none() {
            self.start = Some(Start::new(link, order.offset));
        }
    }

    // What comes of the block that leaves.
    fn step(&self, cell: LaneCell) -> Step
        ensures waits { self.now.start ≡ None → result ≡ Stay }
        ensures started { (s : StartValue) → self.now.start ≡ Some s
            → result ≡ (if s.inside then Keep cell else Stay) }
    {
        match &self.start {
            Some(start) if start.inside => Step::Keep(cell),
            _ => Step::Stay,
        }
    }

    fn report(&self) -> LaneReport
        ensures { (p : ParamsValue) (t : TimingValue) (taken : List Taken)
            (h : IsHeld self.now p t taken) → AreBlocks taken
            → result ≡ report_of p taken (Some h.at) }
    {
        LaneReport {
            locked: self.after == 96,
            started: offset(&self.start),
            lost: self.loss.is_lost(),
            ilas: IlasState::Idle,
        }
    }
}

impl Start {
    fn new(link: &Link, offset: u32) -> Start
        ensures { result ≡ start_at link.now.timing offset }
    {
        Start {
            offset,
            inside: link.is_inside(offset),
        }
    }
}

// The offset of a lane that has started.
fn offset(start: &Option<Start>) -> Option<u32>
    ensures { result ≡ option_map (λ (s : StartValue). s.offset) start.now }
{
    match start {
        Some(start) => Some(start.offset),
        None => None,
    }
}

// One block more, up to 96.
fn counted(after: u32) -> u32
    ensures { result ≡ min (after + 1) 96 }
{
    if after < 96 { after + 1 } else { 96 }
}

// A header is bad.
fn is_bad(sync: SyncBit) -> bool
    ensures { result ≡ is_bad sync }
{
    match sync {
        SyncBit::Bad => true,
        _ => false,
    }
}

// Sixty-four blocks before the one with this place stands the first of an extended multiblock of
// `e` multiblocks.
fn leaves_first(place: u32, e: u32) -> bool
    requires { 1 ≤ e }
    ensures { result ≡ ((place % 32 == 0) && (place / 32 == 2 % e)) }
{
    place % 32 == 0 && place / 32 == 2 % e
}
