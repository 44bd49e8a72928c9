//! Tests of the clock of a device.
ghost use Rattle.std.specs.Prelude.{◌≡◌, All, IsTrue};
ghost use Rattle.link_params.specs.declared.alarms.Device.TheVariants.{Tx};
ghost use Rattle.scenario.specs.Limits.{jitter_fits};

use crate::device_clock::DeviceClock;
use link_params::{Device, Link, Mode, Params, Timing};
use scenario::Jitter;
use sysref_clock::ClockTick;

// A link with a multiframe of 64 octets.
fn link() -> Option<Link> {
    let params = Params {
        mode: Mode::B,
        l: 2,
        m: 2,
        f: 2,
        s: 1,
        n: 16,
        np: 16,
        cs: 0,
        hd: false,
        scr: true,
        k: 32,
        e: 0,
    };
    let timing = Timing {
        sysref_period: 128,
        sysref_start: 2,
        tx_skew: 8,
        rx_skew: 120,
        tolerance: 7,
        rbd: 20,
        sync_delay: 5,
        w_lo: 5,
        w_hi: 20,
    };
    match params.check() {
        Ok(shape) => match shape.with(&timing) {
            Ok(link) => Some(link),
            Err(_) => None,
        },
        Err(_) => None,
    }
}

// What the clock answers in tick `at`, below 1000, where the device is reset in one tick.
fn answer_in(device: Device, jitters: &[Jitter], reset: u32, at: u32) -> Option<ClockTick>
    requires { All (λ j. IsTrue (jitter_fits j)) jitters.now }
{
    let link = link()?;
    let mut clock = DeviceClock::new(&link, jitters, device);
    let mut answer = None;
    for t in 0..1000 {
        let now = clock.tick(jitters, t, t == reset);
        if t == at {
            answer = Some(now);
        }
    }
    answer
}

fn tx_jitter(edge: u32, sixteenths: i32) -> Jitter
    ensures { result ≡ record { device = Tx; edge = edge; sixteenths = sixteenths } }
{
    Jitter {
        device: Device::Tx,
        edge,
        sixteenths,
    }
}

// The same, without jitter, or with two records for edge 0 at the transmitter of which the last
// says -8.
fn answer_with(device: Device, jitter: bool, reset: u32, at: u32) -> Option<ClockTick> {
    if !jitter {
        return answer_in(device, &[], reset, at);
    }
    answer_in(device, &[tx_jitter(0, 16), tx_jitter(0, -8)], reset, at)
}

#[test]
fn answers(rt: HostRuntime) {
    let rows = [
        (Device::Tx, false, 0, 2, None, None),
        (Device::Tx, false, 0, 3, Some(0), None),
        (Device::Tx, false, 0, 131, Some(0), None),
        (Device::Tx, false, 3, 3, Some(0), None),
        (Device::Tx, false, 4, 4, None, None),
        (Device::Rx, false, 0, 9, None, None),
        (Device::Rx, false, 0, 10, Some(0), None),
        (Device::Rx, true, 0, 10, Some(0), None),
        (Device::Tx, true, 0, 1, None, None),
        (Device::Tx, true, 0, 2, Some(0), None),
        (Device::Tx, true, 0, 131, Some(1), Some(1)),
        (Device::Tx, true, 100, 130, None, None),
        (Device::Tx, true, 100, 131, Some(0), None),
    ];
    for (device, jitter, reset, at, phase, off) in rows {
        assert_eq!(rt;
            answer_with(device, jitter, reset, at),
            Some(ClockTick { phase, off }),
            "reset in {reset}, tick {at}"
        );
    }
}
