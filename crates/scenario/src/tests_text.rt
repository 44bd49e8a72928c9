//! Worked lines of a report, and worked source frames.
use crate::line_text::LineText;
use crate::report_row::{Row, Totals};
use crate::source::{ramp_words, repeated_frame};
use jesd_base::NoMemory;
use link_params::{Alarm, Device, Link, Mark, Mode, Params, Timing};
use std::alloc::Global;
use std::test::Fail;

// Two converters of `n` bits on two lanes, and a timing.
fn link(n: u32) -> Option<Link> {
    let params = Params {
        mode: Mode::B,
        l: 2,
        m: 2,
        f: 2,
        s: 1,
        n,
        np: 16,
        cs: 0,
        hd: false,
        scr: true,
        k: 32,
        e: 0,
    };
    let timing = Timing {
        sysref_period: 128,
        sysref_start: 2,
        tx_skew: 8,
        rx_skew: 120,
        tolerance: 7,
        rbd: 20,
        sync_delay: 5,
        w_lo: 5,
        w_hi: 20,
    };
    match params.check() {
        Ok(shape) => match shape.with(&timing) {
            Ok(link) => Some(link),
            Err(_) => None,
        },
        Err(_) => None,
    }
}

// Whether the line of a row with these two words is this one, where the text was another one
// before.
fn is_line(
    alloc: Global,
    link: &Link,
    version: u32,
    row: &Row,
    line: &[u8],
) -> Result<bool, NoMemory> {
    let mut text = LineText::open(alloc, 146)?;
    text.row(&Row::Hunt(1), &[], link, version);
    text.row(row, &[0x2BC, 0x05D], link, version);
    Ok(text.bytes() == line)
}

#[test]
fn lines(rt: HostRuntime) -> Result<(), Fail> {
    let link = link(11).ok_or("no link")?;
    let totals = Totals {
        ticks: 4294967295,
        entered: 20,
        delivered: 19,
        ok: 10,
        fixed: 5,
        bad: 4,
        alarms: 0,
        fullest: 16,
    };
    let table: [(Row, &[u8]); 12] = [
        (Row::Link, b"link,64,27,27,23,2432\n"),
        (Row::Hunt(0), b"hunt,0\n"),
        (Row::Arm(127), b"arm,127\n"),
        (Row::Release(255), b"release,255\n"),
        (
            Row::Alarm(
                9,
                Alarm::LaneWindow {
                    lane: 1,
                    offset: 33,
                },
            ),
            b"alarm,9,lane_window,1,33\n",
        ),
        (
            Row::Alarm(9, Alarm::ConfigMismatch { lane: 0, octet: 13 }),
            b"alarm,9,config_mismatch,0,13\n",
        ),
        (
            Row::Alarm(
                9,
                Alarm::SysrefPhase {
                    device: Device::Rx,
                    off: 63,
                },
            ),
            b"alarm,9,sysref_phase,rx,63\n",
        ),
        (
            Row::Alarm(9, Alarm::StartTimeout),
            b"alarm,9,start_timeout\n",
        ),
        (Row::Enter(40), b"enter,40,2bc,05d\n"),
        (Row::Frame(67, Mark::Ok), b"frame,67,ok,2bc,05d\n"),
        (Row::Frame(69, Mark::Fixed), b"frame,69,fixed,2bc,05d\n"),
        (Row::End(totals), b"end,4294967295,20,19,10,5,4,0,16\n"),
    ];
    for (row, line) in table {
        for version in 1..3 {
            assert!(rt; is_line(rt.alloc(), &link, version, &row, line)?);
        }
    }
    let other = Row::Alarm(350, Alarm::LaneId { lane: 0, lid: 1 });
    assert!(rt;
        is_line(
            rt.alloc(),
            &link,
            1,
            &other,
            b"alarm,350,config_mismatch,0,2\n"
        )?
    );
    assert!(rt; is_line(rt.alloc(), &link, 2, &other, b"alarm,350,lane_id,0,1\n")?);
    Ok(())
}

#[test]
fn ramps(rt: HostRuntime) {
    let mut words = [0, 0, 0, 0];
    ramp_words(0x7FFE, 3, 15, &mut words);
    assert_eq!(rt; words, [0x7FFE, 1, 4, 7]);
    ramp_words(u64::MAX, 1, 32, &mut words);
    assert_eq!(rt; words, [0xFFFF_FFFF, 0, 1, 2]);
}

#[test]
fn frames_again_and_again(rt: HostRuntime) {
    let frames = [1, 2, 3, 4, 5, 6];
    let mut words = [0, 0];
    repeated_frame(&frames, 2, &mut words);
    assert_eq!(rt; words, [5, 6]);
    repeated_frame(&frames, u64::MAX, &mut words);
    assert_eq!(rt; words, [1, 2]);
    repeated_frame(&[], 1, &mut words);
    assert_eq!(rt; words, [1, 2]);
}
