//! A lane's readings from its start on.
ghost use Rattle.std.specs.Prelude.{◌≡◌, ◌<◌, IfSome};
ghost use Rattle.link_params.specs.declared.fields.Mode.TheVariants.{B};

use crate::started::Started;
use code_8b10b::{Char, Reading};
use ilas::ilas_char;
use link_params::{IlasCause, IlasState, LaneCell, Link, Mark, Mode, Params, Timing};

// One lane, a frame of one octet and a multiframe of 17.
fn link(scr: bool) -> Option<Link>
    ensures { IfSome result (λ k. (k.params.mode ≡ B) × (0 < k.params.l)) }
{
    let params = Params {
        mode: Mode::B,
        l: 1,
        m: 1,
        f: 1,
        s: 1,
        n: 8,
        np: 8,
        cs: 0,
        hd: false,
        scr,
        k: 17,
        e: 0,
    };
    let timing = Timing {
        sysref_period: 1088,
        sysref_start: 2,
        tx_skew: 8,
        rx_skew: 120,
        tolerance: 7,
        rbd: 0,
        sync_delay: 5,
        w_lo: 5,
        w_hi: 6,
    };
    match params.check() {
        Ok(shape) => match shape.with(&timing) {
            Ok(link) => Some(link),
            Err(_) => None,
        },
        Err(_) => None,
    }
}

const D: Reading = Reading::Char(Char::Data(0x55));

const A: Reading = Reading::Char(Char::Control(0x7C));

const F: Reading = Reading::Char(Char::Control(0xFC));

// A lane after the first places of its sequence, with another reading at some of them.
fn after_places(link: &Link, count: u32, wrong: Reading, places: &[u32]) -> Started
    requires mode { link.now.params.mode ≡ B }
    requires lanes { 0 < link.now.params.l }
{
    let mut started = Started::new(link, 0);
    for place in 0..count.min(4 * link.shape().period()) {
        let due = Reading::Char(ilas_char(link, 0, place));
        started.push(if places.contains(&place) { wrong } else { due });
    }
    started
}

// Where the check stands after these places, and whether the lane is lost.
fn sequence(count: u32, wrong: Reading, places: &[u32]) -> Option<(IlasState, bool)> {
    let started = after_places(&link(false)?, count, wrong, places);
    Some((started.ilas(), started.is_lost()))
}

#[test]
fn sequences(rt: HostRuntime) {
    let fault = |place, cause| IlasState::Fault { place, cause };
    let none: [u32; 0] = [];
    assert_eq!(rt; sequence(0, D, &none), Some((IlasState::Idle, false)));
    assert_eq!(rt; sequence(67, D, &none), Some((IlasState::Going, false)));
    assert_eq!(rt; sequence(68, D, &none), Some((IlasState::Done, false)));
    let table = [
        (
            [5, 5, 5, 9],
            Reading::Invalid,
            fault(5, IlasCause::Code),
            false,
        ),
        (
            [5, 9, 13, 20],
            Reading::Invalid,
            fault(5, IlasCause::Code),
            true,
        ),
        (
            [5, 9, 13, 21],
            Reading::Invalid,
            fault(5, IlasCause::Code),
            false,
        ),
        ([5, 11, 22, 28], A, fault(5, IlasCause::Wrong), false),
        ([18, 23, 28, 32], A, fault(18, IlasCause::Wrong), true),
    ];
    for (places, wrong, state, lost) in table {
        assert_eq!(rt; sequence(68, wrong, &places), Some((state, lost)));
    }
}

// What the last of these readings gives after a clean sequence.
fn last_cell(scr: bool, readings: &[Reading]) -> Option<LaneCell> {
    let mut started = after_places(&link(scr)?, 68, D, &[]);
    let mut cell = None;
    for reading in readings {
        cell = started.push(*reading);
    }
    cell
}

fn cell(value: u64, mark: Mark) -> LaneCell {
    LaneCell { value, mark }
}

#[test]
fn plain_data(rt: HostRuntime) {
    let disparity = Reading::Disparity(Char::Data(0x55));
    let table = [
        ([D, D, D], cell(0x55, Mark::Ok)),
        ([D, D, F], cell(0x55, Mark::Ok)),
        ([D, D, A], cell(0x7C, Mark::Bad)),
        ([D, D, Reading::Invalid], cell(0, Mark::Bad)),
        ([D, D, disparity], cell(0x55, Mark::Bad)),
        ([D, disparity, F], cell(0x55, Mark::Bad)),
        ([disparity, D, F], cell(0x55, Mark::Ok)),
    ];
    for (at, (readings, want)) in table.iter().enumerate() {
        assert_eq!(rt; last_cell(false, readings), Some(*want), "at {at}");
    }
}

// Octets 0 are scrambled to 01 00 06 00.
#[test]
fn scrambled_data(rt: HostRuntime) {
    let sent = |octet| Reading::Char(Char::Data(octet));
    let clean = [sent(0x01), sent(0x00), sent(0x06), sent(0x00)];
    let first_bad = [
        Reading::Disparity(Char::Data(0x01)),
        sent(0x00),
        sent(0x06),
        sent(0x00),
    ];
    let marks = [Mark::Bad, Mark::Bad, Mark::Bad, Mark::Ok];
    for (at, mark) in marks.iter().enumerate() {
        assert_eq!(rt; last_cell(true, &clean[..at + 1]), Some(cell(0, Mark::Ok)));
        assert_eq!(rt; last_cell(true, &first_bad[..at + 1]), Some(cell(0, *mark)));
    }
}

// Whether a lane is lost with this reading at some places of its data, and /F/ at another one.
fn is_lost(count: u32, wrong: Reading, places: &[u32], accepted: u32) -> Option<bool> {
    let mut started = after_places(&link(false)?, 68, D, &[]);
    for place in 0..count {
        let due = if place == accepted { F } else { D };
        started.push(if places.contains(&place) { wrong } else { due });
    }
    Some(started.is_lost())
}

#[test]
fn losses(rt: HostRuntime) {
    let table = [
        (16, Reading::Invalid, [0, 5, 10, 15], 99, true),
        (15, Reading::Invalid, [0, 5, 10, 15], 99, false),
        (16, Reading::Invalid, [0, 5, 10, 16], 99, false),
        (60, Reading::Invalid, [0, 5, 10, 16], 99, false),
        (60, Reading::Invalid, [0, 5, 10, 15], 99, true),
        (60, A, [0, 6, 12, 18], 99, true),
        (18, A, [0, 6, 12, 18], 99, false),
        (60, A, [0, 6, 12, 18], 14, false),
        (60, A, [0, 6, 16, 18], 99, false),
    ];
    for (at, (count, wrong, places, accepted, want)) in table.iter().enumerate() {
        let lost = is_lost(*count, *wrong, places, *accepted);
        assert_eq!(rt; lost, Some(*want), "at {at}");
    }
}
