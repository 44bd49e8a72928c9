//! Receiver lanes: locks at any bit, dropped locks, starts, and bits that are no characters.
ghost use Rattle.std.specs.Prelude.{◌≡◌, ◌<◌, ℕ, IfSome, IsTrue, get_or, length};
ghost use Rattle.link_params.specs.declared.fields.Mode.TheVariants.{B};

use crate::RxLaneB;
use link_params::{
    IlasCause, IlasState, LaneCell, LaneReport, Link, Mark, Mode, Params, RxOrder, Timing,
};
use std::alloc::Global;
use std::test::Fail;

// One lane, a multiframe of 17 octets, a window of 5 to 6 ticks.
fn link() -> Option<Link>
    ensures { IfSome result (λ k. (k.params.mode ≡ B) × (0 < k.params.l)) }
{
    let params = Params {
        mode: Mode::B,
        l: 1,
        m: 1,
        f: 1,
        s: 1,
        n: 8,
        np: 8,
        cs: 0,
        hd: false,
        scr: false,
        k: 17,
        e: 0,
    };
    let timing = Timing {
        sysref_period: 1088,
        sysref_start: 2,
        tx_skew: 8,
        rx_skew: 120,
        tolerance: 7,
        rbd: 0,
        sync_delay: 5,
        w_lo: 5,
        w_hi: 6,
    };
    match params.check() {
        Ok(shape) => match shape.with(&timing) {
            Ok(link) => Some(link),
            Err(_) => None,
        },
        Err(_) => None,
    }
}

// A lane and the room of its buffer. Each tick takes an entry out first.
#[derive(Drop)]
struct Bench {
    lane: RxLaneB,
    depth: u32,
    ghost same: { depth ≡ lane.buffer.depth },
}

impl Bench {
    fn open(alloc: Global) -> Option<Bench> {
        let link = link()?;
        let lane = RxLaneB::open(alloc, &link, 0).ok()?;
        Some(Bench {
            lane,
            depth: link.depth(),
        })
    }

    fn take(&mut self, order: &RxOrder, word: u16) {
        if self.lane.held() > 0 {
            self.lane.give();
        }
        if order.hunt || self.lane.held() < self.depth {
            self.lane.take(order, word & 0x3FF);
        }
    }

    // What the lane gives, where it holds an entry.
    fn give(&mut self) -> Option<Option<LaneCell>> {
        if self.lane.held() == 0 {
            return None;
        }
        Some(self.lane.give())
    }

    // Takes characters that come `phase` bits after the ticks' beginnings, from the second one on.
    fn take_all(&mut self, order: &RxOrder, phase: u32, chars: &[u16]) {
        for index in 1..chars.len() {
            let both = u32::from(chars[index - 1]) << 10 | u32::from(chars[index]);
            self.take(order, (both >> phase % 10 & 0x3FF) as u16);
        }
    }

    // Takes as many words, each made from the one before.
    fn take_words(&mut self, order: &RxOrder, count: u32, first: u16, factor: u16, more: u16) {
        let mut word = first;
        for _ in 0..count {
            self.take(order, word);
            word = word.wrapping_mul(factor).wrapping_add(more);
        }
    }
}

const HUNT: RxOrder = RxOrder {
    hunt: true,
    armed: false,
    offset: 0,
};

const WAIT: RxOrder = RxOrder {
    hunt: false,
    armed: false,
    offset: 0,
};

fn armed(offset: u32) -> RxOrder {
    RxOrder {
        hunt: false,
        armed: true,
        offset,
    }
}

// /K/ at either disparity, /R/, and D21.5.
const K: u16 = 0x0FA;

const L: u16 = 0x305;

const R: u16 = 0x0F4;

const D: u16 = 0x2AA;

const NOT_LOCKED: LaneReport = LaneReport {
    locked: false,
    started: None,
    lost: false,
    ilas: IlasState::Idle,
};

const LOCKED: LaneReport = LaneReport {
    locked: true,
    started: None,
    lost: false,
    ilas: IlasState::Idle,
};

fn started(offset: u32, lost: bool, ilas: IlasState) -> LaneReport {
    LaneReport {
        locked: true,
        started: Some(offset),
        lost,
        ilas,
    }
}

#[test]
fn locks_at_each_bit(rt: HostRuntime) -> Result<(), Fail> {
    let mut bench = Bench::open(rt.alloc()).ok_or("memory")?;
    for phase in 0..10 {
        bench.take_all(&HUNT, phase, &[0, K]);
        bench.take_all(&WAIT, phase, &[K, L, K, L]);
        let whole = if phase == 0 { LOCKED } else { NOT_LOCKED };
        assert_eq!(rt; bench.lane.report(), whole, "{phase}");
        bench.take_all(&WAIT, phase, &[L, K]);
        assert_eq!(rt; bench.lane.report(), LOCKED, "{phase}");
        bench.take_all(&armed(6), phase, &[K, L, R, D]);
        assert_eq!(rt;
            bench.lane.report(),
            started(6, false, IlasState::Going),
            "{phase}"
        );
        assert_eq!(rt; bench.lane.held(), 1, "{phase}");
    }
    Ok(())
}

// Another character before the lane is armed drops the lock, and the hunt goes on behind it.
#[test]
fn drops_and_locks_again(rt: HostRuntime) -> Result<(), Fail> {
    let mut bench = Bench::open(rt.alloc()).ok_or("memory")?;
    bench.take_all(&HUNT, 4, &[0, K]);
    bench.take_all(&WAIT, 4, &[K, L, K, L, D]);
    assert_eq!(rt; bench.lane.report(), LOCKED);
    bench.take_all(&WAIT, 4, &[D, K]);
    assert_eq!(rt; bench.lane.report(), NOT_LOCKED);
    bench.take_all(&armed(6), 4, &[K, L, K, L]);
    assert_eq!(rt; bench.lane.report(), NOT_LOCKED);
    bench.take_all(&armed(7), 4, &[L, R]);
    assert_eq!(rt; bench.lane.report(), LOCKED);
    bench.take_all(&armed(8), 4, &[R, D]);
    assert_eq!(rt; bench.lane.report(), started(8, false, IlasState::Going));
    assert_eq!(rt; bench.lane.held(), 0);
    Ok(())
}

// A hunt finds nothing in such bits, and a started lane is lost but for bits that alternate, which are the character D21.5.
#[test]
fn bits_of_no_lane(rt: HostRuntime) -> Result<(), Fail> {
    let mut bench = Bench::open(rt.alloc()).ok_or("memory")?;
    for (first, factor, more, lost) in [
        (0, 1, 0, true),
        (0x3FF, 1, 0, true),
        (D, 1, 0, false),
        (0x123, 0x6255, 0x3619, true),
    ] {
        bench.take_all(&HUNT, 0, &[0, 0]);
        bench.take_words(&armed(6), 4_096, first, factor, more);
        assert_eq!(rt; bench.lane.report(), NOT_LOCKED, "{first}");
        bench.take_all(&armed(6), 7, &[0, K, L, K, L, R, R, D]);
        let wrong = IlasState::Fault {
            place: 1,
            cause: IlasCause::Wrong,
        };
        assert_eq!(rt; bench.lane.report(), started(6, false, wrong), "{first}");
        bench.take_words(&WAIT, 4_096, first, factor, more);
        assert_eq!(rt; bench.lane.report(), started(6, lost, wrong), "{first}");
    }
    Ok(())
}

// The places of the alignment sequence, four multiframes of 17, give nothing; then each character
// of data gives its octet: D21.5, D10.2, and ten bits that are no character.
#[test]
fn gives_places_and_then_data(rt: HostRuntime) -> Result<(), Fail> {
    let mut bench = Bench::open(rt.alloc()).ok_or("memory")?;
    bench.take_all(&HUNT, 0, &[0, K]);
    bench.take_all(&WAIT, 0, &[K, L, K, L]);
    assert_eq!(rt; bench.give(), None);
    for place in 0..68 {
        bench.take(&armed(6), if place == 0 { R } else { D });
        assert_eq!(rt; bench.give(), Some(None), "{place}");
        assert_eq!(rt; bench.lane.held(), 0, "{place}");
    }
    for (word, value, mark) in [
        (D, 0xB5, Mark::Ok),
        (0x155, 0x4A, Mark::Ok),
        (0x3FF, 0, Mark::Bad),
        (D, 0xB5, Mark::Ok),
    ] {
        bench.take(&WAIT, word);
        assert_eq!(rt;
            bench.give(),
            Some(Some(LaneCell { value, mark })),
            "{word}"
        );
    }
    Ok(())
}

// Whether each word has ten bits.
fn are_tens(words: &[u16]) -> bool
    ensures { IsTrue result → (i : ℕ) → i < length words.now → get_or words.now i 0 < 1024 }
{
    words.iter().all(|word| *word < 1024)
}

impl Bench {
    // Takes a run of these words, all of them or up to a change of the report, where there is room.
    // Gives how many it took.
    fn run(&mut self, order: &RxOrder, words: &[u16], is_whole: bool) -> Option<usize> {
        let fits = self.lane.held() as usize + words.len() <= self.depth as usize;
        if order.hunt || order.offset >= self.lane.period() || !fits || !are_tens(words) {
            return None;
        }
        if is_whole {
            self.lane.run(order, words);
            return Some(words.len());
        }
        Some(self.lane.run_to_change(order, words))
    }
}

// Up to the lock, to the start with the offset of its own tick, and to the first fault of the
// alignment sequence.
#[test]
fn a_run_ends_with_a_change(rt: HostRuntime) -> Result<(), Fail> {
    let mut bench = Bench::open(rt.alloc()).ok_or("memory")?;
    bench.take(&HUNT, K);
    let going = started(0, false, IlasState::Going);
    let wrong = IlasState::Fault {
        place: 1,
        cause: IlasCause::Wrong,
    };
    let rows: [(RxOrder, &[u16], bool, usize, LaneReport); 5] = [
        (WAIT, &[L, K], true, 2, NOT_LOCKED),
        (WAIT, &[L, K, L], false, 1, LOCKED),
        (WAIT, &[K], false, 1, LOCKED),
        (armed(16), &[L, R, D], false, 2, going),
        (armed(1), &[R, D], true, 2, started(0, false, wrong)),
    ];
    for (order, words, is_whole, count, report) in rows {
        assert_eq!(rt; bench.run(&order, words, is_whole), Some(count), "{count}");
        assert_eq!(rt; bench.lane.report(), report, "{count}");
    }
    assert_eq!(rt; bench.lane.held(), 0);
    Ok(())
}
