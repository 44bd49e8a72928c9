//! Decisions on a link of two lanes.
ghost use Rattle.std.specs.Prelude.{◌≡◌, ◌++◌, ◌∷◌, [], List, true};
ghost use Rattle.link_params.specs.declared.lane_report.LaneReport.{LaneReport as Report};
ghost use Rattle.bring_up.specs.kept.Controls.{HasDecided, NamesOctet};

use crate::{AlarmRow, Control, Decision, Stage};
use link_params::{Alarm, IlasCause, IlasState, LaneReport, Link, Mode, Params, Timing};
use std::test::Fail;

// Two lanes with a multiframe of 64 octets and the window 5 to 6.
fn link_of_two() -> Option<Link> {
    let params = Params {
        mode: Mode::B,
        l: 2,
        m: 2,
        f: 2,
        s: 1,
        n: 16,
        np: 16,
        cs: 0,
        hd: false,
        scr: true,
        k: 32,
        e: 0,
    };
    let timing = Timing {
        sysref_period: 1088,
        sysref_start: 2,
        tx_skew: 8,
        rx_skew: 120,
        tolerance: 7,
        rbd: 0,
        sync_delay: 5,
        w_lo: 5,
        w_hi: 6,
    };
    params.check().ok()?.with(&timing).ok()
}

// A decision: what the lanes report, what is decided, and the first two alarms.
#[derive(Drop)]
struct Step {
    reports: [LaneReport; 2],
    decision: Decision,
    alarms: [Option<Alarm>; 2],
}

const UNLOCKED: LaneReport = LaneReport {
    locked: false,
    started: None,
    lost: false,
    ilas: IlasState::Idle,
};

const LOCKED: LaneReport = LaneReport {
    locked: true,
    ..UNLOCKED
};

fn started(offset: u32) -> LaneReport {
    LaneReport {
        started: Some(offset),
        ilas: IlasState::Going,
        ..LOCKED
    }
}

fn faulty(place: u32, cause: IlasCause) -> LaneReport {
    LaneReport {
        ilas: IlasState::Fault { place, cause },
        ..started(5)
    }
}

fn lost() -> LaneReport {
    LaneReport {
        lost: true,
        ..faulty(10, IlasCause::Wrong)
    }
}

fn calm(decision: Decision, first: LaneReport, second: LaneReport) -> Step {
    Step {
        reports: [first, second],
        decision,
        alarms: [None, None],
    }
}

fn alarmed(first: LaneReport, second: LaneReport, alarm: Alarm) -> Step {
    Step {
        reports: [first, second],
        decision: Decision::Hunt,
        alarms: [Some(alarm), None],
    }
}

// The decisions of a receiver since its reset, with the first at 0.
fn step_at(at: u32) -> Step {
    match at {
        0..=14 => calm(Decision::Stay, UNLOCKED, LOCKED),
        15 => Step {
            reports: [UNLOCKED, UNLOCKED],
            decision: Decision::Stay,
            alarms: [
                Some(Alarm::NoLock { lane: 0 }),
                Some(Alarm::NoLock { lane: 1 }),
            ],
        },
        16 => calm(Decision::Stay, LOCKED, UNLOCKED),
        17 => calm(Decision::Arm, LOCKED, LOCKED),
        18..=24 => calm(Decision::Stay, LOCKED, LOCKED),
        25 => alarmed(LOCKED, LOCKED, Alarm::StartTimeout),
        29 | 34 | 39 | 44 | 49 | 54 => calm(Decision::Arm, LOCKED, LOCKED),
        30 => alarmed(started(6), LOCKED, Alarm::LaneMissing { lane: 1 }),
        35 => alarmed(LOCKED, started(7), Alarm::LaneWindow { lane: 1, offset: 7 }),
        40 => alarmed(lost(), started(7), Alarm::LaneLost { lane: 0 }),
        45 => Step {
            reports: [faulty(69, IlasCause::Config), faulty(80, IlasCause::Code)],
            decision: Decision::Hunt,
            alarms: [
                Some(Alarm::ConfigMismatch { lane: 0, octet: 3 }),
                Some(Alarm::IlasFault { lane: 1, place: 80 }),
            ],
        },
        50 => Step {
            reports: [
                faulty(68, IlasCause::LaneId { lid: 9 }),
                faulty(81, IlasCause::Fchk),
            ],
            decision: Decision::Hunt,
            alarms: [
                Some(Alarm::LaneId { lane: 0, lid: 9 }),
                Some(Alarm::IlasFault { lane: 1, place: 81 }),
            ],
        },
        55 => calm(Decision::Release, started(5), started(6)),
        56..=60 => calm(Decision::Stay, started(5), started(6)),
        61 => alarmed(started(5), lost(), Alarm::LaneLost { lane: 1 }),
        _ => calm(Decision::Stay, LOCKED, LOCKED),
    }
}

// Whether a fault of the configuration is in a configuration octet.
fn names_octet(link: &Link, report: &LaneReport) -> bool
    ensures { result ≡ true → NamesOctet link.now.params report.now }
{
    let first = link.shape().period() + 2;
    match report.ilas {
        IlasState::Fault {
            place,
            cause: IlasCause::Config,
        } => first <= place && place < first + 13,
        _ => true,
    }
}

// The decision on two reports.
fn decided(
    link: &Link,
    control: &mut Control,
    reports: [LaneReport; 2],
    alarms: &mut AlarmRow,
) -> Option<Decision>
    requires lanes { link.now.params.l ≡ 2 }
    requires begun { (before : List (List Report)) × HasDecided control.old link.now.params link.now.timing before }
    ensures { (before : List (List Report)) × HasDecided control.new link.now.params link.now.timing before }
{
    let [first, second] = reports;
    if !names_octet(link, &first) || !names_octet(link, &second) {
        return None;
    }
    alarms.clear();
    Some(control.decide(&reports, alarms))
}

fn alarm_at(alarms: &AlarmRow, i: u32) -> Option<Alarm> {
    if i < alarms.len() {
        Some(alarms.get(i))
    } else {
        None
    }
}

#[test]
fn decisions_of_two_lanes(rt: HostRuntime) -> Result<(), Fail> {
    let link = link_of_two().ok_or("link")?;
    assert_eq!(rt; link.shape().lanes(), 2);
    let mut control = Control::new(&link);
    let mut alarms = AlarmRow::new();
    for at in 0..62 {
        let step = step_at(at);
        let decision = decided(&link, &mut control, step.reports, &mut alarms);
        assert_eq!(rt; decision, Some(step.decision), "at {at}");
        assert_eq!(rt; alarm_at(&alarms, 0), step.alarms[0], "at {at}");
        assert_eq!(rt; alarm_at(&alarms, 1), step.alarms[1], "at {at}");
        assert_eq!(rt; control.sync_low(), control.stage() == Stage::Hunt);
    }
    control.reset();
    assert!(rt; control.sync_low());
    Ok(())
}
