//! The receiver's end of a lane.
ghost use Rattle.std.specs.Prelude.{◌≡◌, ◌≢◌, ◌<◌, ◌≤◌, ◌+◌, ◌-◌, ◌++◌, ◌∷◌, [], ℕ, List, Option, Some, None, true, false, length, get_or, IfOk};
ghost use Rattle.jesd_base.specs.Bits.{bits as bits_of};
ghost use Rattle.link_params.specs.declared.fields.Params.{Params as ParamsValue};
ghost use Rattle.link_params.specs.declared.fields.Timing.{Timing as TimingValue};
ghost use Rattle.link_params.specs.declared.fields.Mode.TheVariants.{B};
ghost use Rattle.link_params.specs.Lanes.{Taken, Entry, Placed, is_inside};
ghost use Rattle.link_params.specs.Numbers.{depth, period};
ghost use Rattle.link_params.specs.Runs.{word_ticks};
ghost use Rattle.lane_b.specs.kept.Gives.{given, ComesInOrder, Holds};
ghost use Rattle.lane_b.specs.Received.{report_b, entries_b};
ghost use Rattle.lane_b.specs.Locking.{is_comma};
ghost use Rattle.code_8b10b.specs.declared.character.Reading.{Reading as ReadingValue};
ghost use Rattle.lane_b.specs.kept.Starts.{HasRead};
ghost use Rattle.lane_b.specs.kept.Receivers.{AreTens, IsLocked, HasTaken};
ghost use Rattle.lane_b.specs.kept.Ticks.{Begins, Does, Reads, Keeps};

use crate::chars::Chars;
use crate::started::Started;
use code_8b10b::{Char, Hunt, K28_5, Reading};
use elastic_buffer::ElasticBuffer;
use jesd_base::NoMemory;
use link_params::{IlasState, LaneCell, LaneReport, Link, Mark, RxOrder, place_after};
use std::alloc::Global;
use std::marker::Model;

/// A receiver lane: ten bits a tick, and an elastic buffer of what it read.
#[derive(Drop)]
pub struct RxLaneB {
    link: Link,
    lane: u32,
    state: State,
    // How many of the oldest entries in the buffer are places of the alignment sequence.
    placed: u32,
    buffer: ElasticBuffer,
}

// Where a lane stands.
#[derive(Drop)]
enum State {
    Hunting(Hunt),
    Locked(Chain),
}

// The characters of a lock, and the lane's start once it came.
#[derive(Drop)]
struct Chain {
    chars: Chars,
    start: Option<Start>,
}

#[derive(Drop)]
struct Start {
    offset: u32,
    // Whether the offset is inside the window.
    inside: bool,
    lane: Started,
}

// What a tick of a locked lane does: nothing more, an entry comes into the buffer, or the lock is dropped.
enum Step {
    Stay,
    Keep(Option<LaneCell>),
    Drop,
}

impl Model for RxLaneB {
    ghost use Rattle.std.specs.Prelude.{◌≡◌, ◌<◌, ◌≤◌, ◌^◌, length};
    ghost use Rattle.link_params.specs.declared.fields.Mode.TheVariants.{B};
    ghost use Rattle.lane_b.specs.kept.Receivers.{Receiver};

    ghost Value = { Receiver };

    ghost view = { λ s. record { params = s.link.params; timing = s.link.timing; lane = s.lane; state = s.state; placed = s.placed; buffer = s.buffer } };

    ghost invariant = { λ s. (s.link.params.mode ≡ B) × (s.lane < s.link.params.l) × (s.placed ≤ length s.buffer.cells) × (0 < s.buffer.depth) × (s.buffer.depth < 2 ^ 32) };
}

impl RxLaneB {
    /// A lane whose hunt begins with the next bit. All memory of its buffer is taken here; `NoMemory` where there is none.
    pub fn open(alloc: Global, link: &Link, lane: u32) -> Result<RxLaneB, NoMemory>
        requires mode { link.now.params.mode ≡ B }
        requires lane { lane < link.now.params.l }
        ensures taken { IfOk result (λ r. HasTaken r link.now.params link.now.timing lane [] 0) }
        ensures depth { IfOk result (λ r. r.buffer.depth ≡ depth link.now.params link.now.timing) }
    {
        Ok(RxLaneB {
            link: *link,
            lane,
            state: State::Hunting(Hunt::new()),
            placed: 0,
            buffer: ElasticBuffer::open(alloc, link.depth())?,
        })
    }

    /// Takes the ten bits of a tick, bit 9 first. An order that begins a hunt empties the lane and its buffer first.
    pub fn take(&mut self, order: &RxOrder, bits: u16)
        requires bits { bits < 1024 }
        requires room { order.now.hunt ≡ false → length self.old.buffer.cells < self.old.buffer.depth }
        ensures goes_on { (p : ParamsValue) (t : TimingValue) (lane : ℕ) (taken : List Taken) (gave : ℕ) → HasTaken self.old p t lane taken gave
            → order.now.hunt ≡ false → HasTaken self.new p t lane (taken ++ (record { order = order.now; word = bits_of 10 bits }) ∷ []) gave }
        ensures begins { (p : ParamsValue) (t : TimingValue) (lane : ℕ) (taken : List Taken) (gave : ℕ) → HasTaken self.old p t lane taken gave
            → order.now.hunt ≡ true → HasTaken self.new p t lane ((record { order = order.now; word = bits_of 10 bits }) ∷ []) 0 }
        ensures depth { self.new.buffer.depth ≡ self.old.buffer.depth }
    {
        if order.hunt {
            self.begin();
        }
        self.tick(order, bits);
    }

    /// Takes the bits of a run of ticks in which no hunt begins, as so many calls of `take`.
    /// `order` is that of the first tick; each later one has the next offset, which goes round in
    /// the link's period. The buffer has room for an entry of each tick, even where the lane has not
    /// started.
    pub fn run(&mut self, order: &RxOrder, words: &[u16])
        requires hunt { order.now.hunt ≡ false }
        requires offset { order.now.offset < period self.old.params }
        requires bits { (i : ℕ) → i < length words.now → get_or words.now i 0 < 1024 }
        requires room { length self.old.buffer.cells + length words.now
            ≤ self.old.buffer.depth }
        ensures goes_on { (p : ParamsValue) (t : TimingValue) (lane : ℕ) (taken : List Taken)
            (gave : ℕ) → HasTaken self.old p t lane taken gave → HasTaken self.new p t lane
            (taken ++ word_ticks 10 order.now (period p) words.now (length words.now)) gave }
        ensures depth { self.new.buffer.depth ≡ self.old.buffer.depth }
    {
        let period = self.period();
        let mut now = *order;
        for i in 0..words.len() {
            self.tick(&now, words[i]);
            now.offset = place_after(now.offset, period);
        }
    }

    /// As `run`, but only up to the first tick after which the lane's report is another than
    /// before. Gives how many ticks were taken. Where all were taken, the report after the last tick
    /// may be another too.
    pub fn run_to_change(&mut self, order: &RxOrder, words: &[u16]) -> usize
        requires hunt { order.now.hunt ≡ false }
        requires offset { order.now.offset < period self.old.params }
        requires bits { (i : ℕ) → i < length words.now → get_or words.now i 0 < 1024 }
        requires room { length self.old.buffer.cells + length words.now
            ≤ self.old.buffer.depth }
        ensures within { result ≤ length words.now }
        ensures alike { (p : ParamsValue) (t : TimingValue) (lane : ℕ) (taken : List Taken)
            (gave : ℕ) → HasTaken self.old p t lane taken gave → (n : ℕ) → n < result
            → report_b p t lane (taken ++ word_ticks 10 order.now (period p) words.now n)
            ≡ report_b p t lane taken }
        ensures change { (p : ParamsValue) (t : TimingValue) (lane : ℕ) (taken : List Taken)
            (gave : ℕ) → HasTaken self.old p t lane taken gave → result < length words.now
            → report_b p t lane (taken ++ word_ticks 10 order.now (period p) words.now result)
            ≢ report_b p t lane taken }
        ensures goes_on { (p : ParamsValue) (t : TimingValue) (lane : ℕ) (taken : List Taken)
            (gave : ℕ) → HasTaken self.old p t lane taken gave → HasTaken self.new p t lane
            (taken ++ word_ticks 10 order.now (period p) words.now result) gave }
        ensures depth { self.new.buffer.depth ≡ self.old.buffer.depth }
    {
        let before = self.report();
        let period = self.period();
        let mut next = *order;
        for i in 0..words.len() {
            self.tick(&next, words[i]);
            if !before.is_same(&self.report()) {
                return i + 1;
            }
            next.offset = place_after(next.offset, period);
        }
        words.len()
    }

    // The link's period in ticks.
    pub(crate) fn period(&self) -> u32
        ensures { result ≡ period self.now.params }
    {
        self.link.shape().period()
    }

    // A hunt begins: nothing was taken yet.
    fn begin(&mut self)
        ensures begins { (p : ParamsValue) (t : TimingValue) (lane : ℕ) (taken : List Taken) (gave : ℕ) → HasTaken self.old p t lane taken gave
            → HasTaken self.new p t lane [] 0 }
        ensures room { length self.new.buffer.cells < self.new.buffer.depth }
        ensures depth { self.new.buffer.depth ≡ self.old.buffer.depth }
    {
        self.state = State::Hunting(Hunt::new());
        self.placed = 0;
        self.buffer.clear();
    }

    // The bits of a tick.
    fn tick(&mut self, order: &RxOrder, bits: u16)
        requires bits { bits < 1024 }
        requires room { length self.old.buffer.cells < self.old.buffer.depth }
        ensures goes_on { (p : ParamsValue) (t : TimingValue) (lane : ℕ) (taken : List Taken) (gave : ℕ) → HasTaken self.old p t lane taken gave
            → HasTaken self.new p t lane (taken ++ (record { order = order.now; word = bits_of 10 bits }) ∷ []) gave }
        ensures depth { self.new.buffer.depth ≡ self.old.buffer.depth }
        ensures most { length self.new.buffer.cells ≤ length self.old.buffer.cells + 1 }
    {
        match &mut self.state {
            State::Hunting(hunt) => {
                if let Some(lock) = hunt.push(bits) {
                    self.state = State::Locked(Chain {
                        chars: Chars::after(&lock, bits),
                        start: None,
                    });
                }
            }
            State::Locked(chain) => match chain.take(&self.link, self.lane, order, bits) {
                Step::Stay => {}
                Step::Keep(entry) => self.keep(entry),
                Step::Drop => {
                    let rest = chain.chars.rest();
                    self.state = State::Hunting(Hunt::resume(bits, rest));
                }
            },
        }
    }

    // Puts an entry into the buffer. A place of the alignment sequence takes a cell of its own.
    fn keep(&mut self, entry: Option<LaneCell>)
        requires room { length self.old.buffer.cells < self.old.buffer.depth }
        ensures same { Keeps self.old self.new }
        ensures entry { (entries : List Entry) (e : Entry) (gave : ℕ) → Holds entries self.old.placed self.old.buffer.cells gave → entry ≡ given e
            → ComesInOrder entries e → Holds (entries ++ e ∷ []) self.new.placed self.new.buffer.cells gave }
        ensures more { length self.new.buffer.cells ≡ length self.old.buffer.cells + 1 }
    {
        match entry {
            Some(cell) => self.buffer.push(cell),
            None => {
                self.placed += 1;
                self.buffer.push(LaneCell {
                    value: 0,
                    mark: Mark::Ok,
                });
            }
        }
    }

    /// What the lane reports after the ticks so far.
    pub fn report(&self) -> LaneReport
        ensures { (p : ParamsValue) (t : TimingValue) (lane : ℕ) (taken : List Taken) (gave : ℕ) → HasTaken self.now p t lane taken gave
            → result ≡ report_b p t lane taken }
    {
        match &self.state {
            State::Hunting(_) => LaneReport {
                locked: false,
                started: None,
                lost: false,
                ilas: IlasState::Idle,
            },
            State::Locked(chain) => chain.report(),
        }
    }

    /// The number of entries in the buffer.
    pub fn held(&self) -> u32
        ensures entries { (p : ParamsValue) (t : TimingValue) (lane : ℕ) (taken : List Taken) (gave : ℕ) → HasTaken self.now p t lane taken gave
            → result ≡ length (entries_b p t lane taken) - gave }
        ensures count { result ≡ length self.now.buffer.cells }
    {
        self.buffer.len()
    }

    /// Gives the oldest entry, and `None` exactly for one of the alignment sequence.
    pub fn give(&mut self) -> Option<LaneCell>
        requires { 0 < length self.old.buffer.cells }
        ensures entry { (p : ParamsValue) (t : TimingValue) (lane : ℕ) (taken : List Taken) (gave : ℕ) → HasTaken self.old p t lane taken gave
            → result ≡ given (get_or (entries_b p t lane taken) gave Placed) }
        ensures goes_on { (p : ParamsValue) (t : TimingValue) (lane : ℕ) (taken : List Taken) (gave : ℕ) → HasTaken self.old p t lane taken gave
            → HasTaken self.new p t lane taken (gave + 1) }
        ensures depth { self.new.buffer.depth ≡ self.old.buffer.depth }
    {
        let cell = self.buffer.pop();
        if self.placed > 0 {
            self.placed -= 1;
            return None;
        }
        Some(cell)
    }
}

impl Chain {
    // The character of a tick.
    fn take(&mut self, link: &Link, lane: u32, order: &RxOrder, bits: u16) -> Step
        requires mode { link.now.params.mode ≡ B }
        requires lane { lane < link.now.params.l }
        requires bits { bits < 1024 }
        ensures { (taken : List Taken) → AreTens taken → IsLocked self.old link.now.params link.now.timing lane taken
            → Does result self.new link.now.params link.now.timing lane taken (record { order = order.now; word = bits_of 10 bits }) }
    {
        let reading = self.chars.next(bits);
        match &mut self.start {
            Some(start) => start.push(reading),
            None if is_comma(reading) => Step::Stay,
            None if order.armed => self.begin(link, lane, order.offset, reading),
            None => Step::Drop,
        }
    }

    // The lane starts with this reading. It stands apart so that other ticks do not pay for the size of a start.
    #[inline(never)]
    fn begin(&mut self, link: &Link, lane: u32, offset: u32, reading: Reading) -> Step
        requires mode { link.now.params.mode ≡ B }
        requires lane { lane < link.now.params.l }
        ensures { Begins result self.old self.new link.now.params link.now.timing lane offset reading }
    {
        let mut start = Start::new(link, lane, offset);
        let step = start.push(reading);
        self.start = Some(start);
        step
    }

    fn report(&self) -> LaneReport
        ensures { (p : ParamsValue) (t : TimingValue) (lane : ℕ) (taken : List Taken) → AreTens taken → IsLocked self.now p t lane taken
            → result ≡ report_b p t lane taken }
    {
        match &self.start {
            None => LaneReport {
                locked: true,
                started: None,
                lost: false,
                ilas: IlasState::Idle,
            },
            Some(start) => LaneReport {
                locked: true,
                started: Some(start.offset),
                lost: start.lane.is_lost(),
                ilas: start.lane.ilas(),
            },
        }
    }
}

impl Start {
    // A start whose first reading comes next.
    fn new(link: &Link, lane: u32, offset: u32) -> Start
        requires mode { link.now.params.mode ≡ B }
        requires lane { lane < link.now.params.l }
        ensures offset { result.offset ≡ offset }
        ensures inside { result.inside ≡ is_inside link.now.timing offset }
        ensures has_read { HasRead result.lane link.now.params lane [] }
    {
        Start {
            offset,
            inside: link.is_inside(offset),
            lane: Started::new(link, lane),
        }
    }

    fn push(&mut self, reading: Reading) -> Step
        ensures { (p : ParamsValue) (lane : ℕ) (since : List ReadingValue) → HasRead self.old.lane p lane since
            → Reads result self.old self.new p lane since reading }
    {
        let entry = self.lane.push(reading);
        if self.inside {
            Step::Keep(entry)
        } else {
            Step::Stay
        }
    }
}

fn is_comma(reading: Reading) -> bool
    ensures { result ≡ is_comma reading }
{
    match reading {
        Reading::Char(Char::Control(octet)) | Reading::Disparity(Char::Control(octet)) => octet
            == K28_5,
        _ => false,
    }
}
