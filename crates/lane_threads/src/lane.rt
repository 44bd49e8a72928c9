//! Both ends of a lane and the line between them.
ghost use Rattle.std.specs.Prelude.{◌≡◌, ◌≤◌, ◌<◌, ◌+◌, ◌-◌, ◌*◌, ◌^◌, [], ℕ, None, false, length, get_or, IfOk};
ghost use Rattle.std.specs.List.Sorted.{IsStrictlyIncreasing};
ghost use Rattle.jesd_base.specs.Bits.{bits as bits_of};
ghost use Rattle.link_params.specs.Lanes.{Placed};
ghost use Rattle.link_params.specs.Numbers.{width};
ghost use Rattle.line_model.specs.kept.Lines.{HasCarried};
ghost use Rattle.lane_b.specs.kept.Gives.{given};
ghost use Rattle.lane_c.specs.kept.Receivers.{IsArmedOn};
ghost use Rattle.scenario.specs.Plans.{Plan};
ghost use Rattle.link_model.specs.Carried.{inverted_bits, with_polarity};
ghost use Rattle.link_model.specs.Wiring.{route_of, wire_of};
ghost use Rattle.link_model.specs.Kinds.{kind_of};
ghost use Rattle.link_model.specs.kept.LaneRuns.{HasNewEnds, LaneRun, no_run, stepped};
ghost use Rattle.lane_threads.specs.kept.LaneEnds.{IsSmall, MayFollow, buffer_in, next_after, next_in, params_in, tx_width};
ghost use Rattle.lane_threads.specs.kept.LaneRuns.{HasRunLane, settings};

use crate::rx_lane::RxLane;
use crate::tx_lane::TxLane;
use jesd_base::NoMemory;
use line_model::Line;
use link_params::{LaneCell, LaneReport, Link, RxOrder, TxOrder};
use std::alloc::Global;
use std::marker::Model;

/// A transmitter lane, a line and a receiver lane, and whether all bits that the receiver lane takes
/// are inverted.
#[derive(Drop)]
pub struct Lane {
    tx: TxLane,
    line: Line,
    rx: RxLane,
    inverted: bool,
}

impl Model for Lane {
    ghost use Rattle.lane_threads.specs.kept.LaneRuns.{AreAlike, Pair};

    ghost Value = { Pair };

    ghost view = { λ s. record { tx = s.tx; line = s.line; rx = s.rx; inverted = s.inverted } };

    ghost invariant = { λ s. AreAlike s.tx s.line s.rx };
}

impl Lane {
    /// A lane before the first tick of a run. `flips` are the received bits that are inverted,
    /// ascending. All memory that the lane needs is taken here; `NoMemory` where there is none.
    pub fn open(
        alloc: Global,
        link: &Link,
        lane: u32,
        expect: u32,
        flips: Vec<u64>,
    ) -> Result<Lane, NoMemory>
        requires lane { lane < link.now.params.l }
        requires expect { expect < link.now.params.l }
        requires ascending { IsStrictlyIncreasing flips.items }
        ensures begins { (s : Plan) (own : ℕ) → s.link ≡ link.now → wire_of s own ≡ lane
            → route_of s own ≡ expect
            → flips.items ≡ inverted_bits s own (width link.now.params * s.ticks)
            → IfOk result (λ x. HasRunLane x s own (no_run s)) }
        ensures next { IfOk result (λ x. (params_in x.tx ≡ link.now.params) × (next_in x.tx ≡ None)) }
    {
        let line = open_line(alloc, link, flips)?;
        Lane::with_line(alloc, link, lane, expect, line)
    }

    /// A lane before its first tick, over any line, also one that carried bits before: transmitter
    /// lane `lane`, and a receiver lane that expects the configuration of lane `expect`. The bits
    /// that it takes are not inverted. All other memory that the lane needs is taken here; `NoMemory`
    /// where there is none.
    pub fn with_line(
        alloc: Global,
        link: &Link,
        lane: u32,
        expect: u32,
        line: Line,
    ) -> Result<Lane, NoMemory>
        requires lane { lane < link.now.params.l }
        requires expect { expect < link.now.params.l }
        requires width { line.set.width ≡ width link.now.params }
        ensures begins { (s : Plan) (own : ℕ) (x : LaneRun) → s.link ≡ link.now
            → wire_of s own ≡ lane → route_of s own ≡ expect → HasNewEnds x
            → HasCarried line (settings s own x) x.sent → IfOk result (λ l. HasRunLane l s own x) }
        ensures next { IfOk result (λ x. (params_in x.tx ≡ link.now.params) × (next_in x.tx ≡ None)) }
        ensures line { IfOk result (λ x. x.line ≡ line) }
    {
        let rx = RxLane::open(alloc, link, expect)?;
        Ok(Lane {
            tx: TxLane::new(link, lane),
            line,
            rx,
            inverted: false,
        })
    }

    /// A tick: the order and the octets of the transmitter end, one or eight with the first one
    /// most significant, and the order of the receiver end.
    pub fn step(&mut self, order: TxOrder, octets: u64, told: &RxOrder)
        requires follows { MayFollow self.old.tx order }
        requires small { IsSmall self.old.tx octets }
        requires room { told.now.hunt ≡ false
            → length (buffer_in self.old.rx).cells < (buffer_in self.old.rx).depth }
        ensures goes_on { (s : Plan) (lane : ℕ) (x : LaneRun) → HasRunLane self.old s lane x
            → (told.now.hunt ≡ false → IsArmedOn x.taken told.now)
            → HasRunLane self.new s lane (stepped (kind_of s.link.params) s lane x order octets told.now) }
        ensures next { next_in self.new.tx ≡ next_after (params_in self.old.tx) order }
        ensures same { params_in self.new.tx ≡ params_in self.old.tx }
        ensures depth { (buffer_in self.new.rx).depth ≡ (buffer_in self.old.rx).depth }
        ensures width { tx_width self.new.tx ≡ tx_width self.old.tx }
    {
        let sent = self.tx.tick(order, octets);
        let received = with_polarity(self.line.step(sent), self.tx.width(), self.inverted);
        self.rx.take(told, received);
    }

    /// The report of the receiver end.
    pub fn report(&self) -> LaneReport
        ensures { (s : Plan) (lane : ℕ) (x : LaneRun) → HasRunLane self.now s lane x
            → result ≡ (kind_of s.link.params).report s.link.params s.link.timing (route_of s lane)
            x.taken }
    {
        self.rx.report()
    }

    /// How many entries the elastic buffer holds.
    pub fn held(&self) -> u32
        ensures entries { (s : Plan) (lane : ℕ) (x : LaneRun) → HasRunLane self.now s lane x
            → result ≡ length ((kind_of s.link.params).entries s.link.params s.link.timing
            (route_of s lane) x.taken) - x.gave }
        ensures count { result ≡ length (buffer_in self.now.rx).cells }
    {
        self.rx.held()
    }

    /// The oldest entry: nothing for a place of the alignment sequence.
    pub fn give(&mut self) -> Option<LaneCell>
        requires { 0 < length (buffer_in self.old.rx).cells }
        ensures entry { (s : Plan) (lane : ℕ) (x : LaneRun) → HasRunLane self.old s lane x
            → result ≡ given (get_or ((kind_of s.link.params).entries s.link.params s.link.timing
            (route_of s lane) x.taken) x.gave Placed) }
        ensures goes_on { (s : Plan) (lane : ℕ) (x : LaneRun) → HasRunLane self.old s lane x
            → HasRunLane self.new s lane (record x { gave = x.gave + 1 }) }
        ensures tx { self.new.tx ≡ self.old.tx }
        ensures depth { (buffer_in self.new.rx).depth ≡ (buffer_in self.old.rx).depth }
    {
        self.rx.give()
    }

    /// A reset of the transmitter.
    pub fn clear_tx(&mut self)
        ensures goes_on { (s : Plan) (lane : ℕ) (x : LaneRun) → HasRunLane self.old s lane x
            → HasRunLane self.new s lane (record x { handed = [] }) }
        ensures next { next_in self.new.tx ≡ None }
        ensures same { params_in self.new.tx ≡ params_in self.old.tx }
        ensures width { tx_width self.new.tx ≡ tx_width self.old.tx }
        ensures rx { self.new.rx ≡ self.old.rx }
    {
        self.tx.clear();
    }

    /// From this tick on the line delays by so many bits.
    pub fn set_delay(&mut self, bits: u32)
        requires { bits ≤ self.old.line.set.reach }
        ensures goes_on { (s : Plan) (lane : ℕ) (x : LaneRun) → HasRunLane self.old s lane x
            → HasRunLane self.new s lane (record x { delay = bits }) }
        ensures tx { self.new.tx ≡ self.old.tx }
        ensures rx { self.new.rx ≡ self.old.rx }
    {
        self.line.set_delay(bits);
    }

    /// From this tick on the line is dead, or alive.
    pub fn set_dead(&mut self, dead: bool)
        ensures goes_on { (s : Plan) (lane : ℕ) (x : LaneRun) → HasRunLane self.old s lane x
            → HasRunLane self.new s lane (record x { dead = dead }) }
        ensures tx { self.new.tx ≡ self.old.tx }
        ensures rx { self.new.rx ≡ self.old.rx }
    {
        self.line.set_dead(dead);
    }

    /// From this tick on all bits that the receiver lane takes are inverted, or none.
    pub fn set_inverted(&mut self, on: bool)
        ensures goes_on { (s : Plan) (lane : ℕ) (x : LaneRun) → HasRunLane self.old s lane x
            → HasRunLane self.new s lane (record x { inverted = on }) }
        ensures tx { self.new.tx ≡ self.old.tx }
        ensures rx { self.new.rx ≡ self.old.rx }
    {
        self.inverted = on;
    }
}

// The bits of a tick, each of them inverted or not.
fn with_polarity(word: u128, width: u32, inverted: bool) -> u128
    requires width { width ≤ 66 }
    requires word { word < 2 ^ width }
    ensures bits { bits_of width result ≡ with_polarity inverted (bits_of width word) }
    ensures below { result < 2 ^ width }
{
    if inverted {
        (1 << width) - 1 - word
    } else {
        word
    }
}

/// The line of a lane before the first tick of a run, with the first delay of the run. `flips` are
/// the received bits that are inverted, ascending. All memory that the line needs is taken here;
/// `NoMemory` where there is none.
pub fn open_line(alloc: Global, link: &Link, flips: Vec<u64>) -> Result<Line, NoMemory>
    requires { IsStrictlyIncreasing flips.items }
    ensures begins { (s : Plan) (lane : ℕ) → s.link ≡ link.now
        → flips.items ≡ inverted_bits s lane (width link.now.params * s.ticks)
        → IfOk result (λ l. HasCarried l (settings s lane (no_run s)) []) }
    ensures width { IfOk result (λ l. l.set.width ≡ width link.now.params) }
{
    let shape = link.shape();
    let reach = (shape.period() - 1) * shape.width();
    let delay = link.timing().w_lo * shape.width();
    Line::open(alloc, shape.width(), reach, delay, flips)
}
