//! The clock of a device over a run.
ghost use Rattle.std.specs.Prelude.{◌≡◌, ◌≤◌, ◌<◌, ◌+◌, ◌*◌, ◌^◌, ℕ, Bool, if◌then◌else◌, List, [], All, IsTrue};
ghost use Rattle.sysref_clock.specs.kept.Ticks.{HasTicked};
ghost use Rattle.scenario.specs.Limits.{jitter_fits};
ghost use Rattle.scenario.specs.Plans.{Plan};
ghost use Rattle.link_model.specs.Edges.{edge_tick, is_device, is_reset, jitter, off, phase, skew};
ghost use Rattle.link_run.specs.kept.Clocked.{HasClocked};
ghost use Rattle.link_model.specs.kept.Before.{IsNear, IsPaced};

use link_params::{Device, Link, Timing};
use scenario::Jitter;
use std::marker::Model;
use sysref_clock::{ClockTick, LocalClock, capture_tick};

/// A device's clock and the SYSREF edges that it will capture. Contracts see it as its link, its
/// device, the next edge and the clock.
#[derive(Drop)]
pub struct DeviceClock {
    link: Link,
    device: Device,
    // The next edge, and the tick in which it is captured.
    next: u32,
    tick: u32,
    clock: LocalClock,
}

impl Model for DeviceClock {
    ghost use Rattle.link_run.specs.kept.Clocked.{Clocking};
    ghost use Rattle.link_model.specs.kept.Before.{IsNear, IsPaced};

    ghost Value = { Clocking };

    ghost view = { λ c. record {
      link = c.link;
      device = c.device;
      next = c.next;
      tick = c.tick;
      clock =
          c.clock;
    } };

    ghost invariant = { λ c. IsPaced c.link × IsNear c.link c.next c.tick };
}

impl DeviceClock {
    /// The clock of a device before the first tick of a run.
    pub fn new(link: &Link, jitters: &[Jitter], device: Device) -> DeviceClock
        requires { All (λ j. IsTrue (jitter_fits j)) jitters.now }
        ensures device { result.device ≡ device }
        ensures link { result.link ≡ link.now }
        ensures begins { (s : Plan) → s.link ≡ link.now → s.jitters ≡ jitters.now
            → HasClocked result s 0 }
    {
        let period = link.shape().period();
        let _timing = link.timing();
        DeviceClock {
            link: *link,
            device,
            next: 0,
            tick: tick_of(link, jitters, device, 0),
            clock: LocalClock::new(period),
        }
    }

    /// The phase of the clock in tick `t`, and that of an edge which comes off a boundary. `reset`:
    /// the device is reset in this tick.
    #[inline(always)]
    pub fn tick(&mut self, jitters: &[Jitter], t: u32, reset: bool) -> ClockTick
        requires tick { t < 1048576 }
        requires jitters { All (λ j. IsTrue (jitter_fits j)) jitters.now }
        ensures answer { (s : Plan) → HasClocked self.old s t → s.jitters ≡ jitters.now
            → reset ≡ is_reset s self.old.device t
            → result ≡ record { phase = phase s self.old.device t; off = off s self.old.device t } }
        ensures goes_on { (s : Plan) → HasClocked self.old s t → s.jitters ≡ jitters.now
            → reset ≡ is_reset s self.old.device t
            → HasClocked self.new s (t + 1) }
        ensures same { self.new.device ≡ self.old.device }
        ensures link { self.new.link ≡ self.old.link }
    {
        clear_if(&mut self.clock, reset);
        let edge = t == self.tick;
        if edge {
            self.tick = tick_after(&self.link, jitters, self.device, self.next, t);
            self.next += 1;
        }
        self.clock.tick(edge)
    }
}

// The clock has no phase after a reset.
fn clear_if(clock: &mut LocalClock, reset: bool)
    ensures { (period : ℕ) (before : List Bool) → HasTicked clock.old period before
        → HasTicked clock.new period (if reset then [] else before) }
{
    if reset {
        clock.clear();
    }
}

// The tick in which a device captures the SYSREF edge after this one, which it captures in tick
// `t`.
fn tick_after(link: &Link, jitters: &[Jitter], device: Device, edge: u32, t: u32) -> u32
    requires tick { t < 1048576 }
    requires paced { IsPaced link.now }
    requires near { IsNear link.now edge t }
    requires jitters { All (λ j. IsTrue (jitter_fits j)) jitters.now }
    ensures tick { (s : Plan) → s.link ≡ link.now → s.jitters ≡ jitters.now
        → result ≡ edge_tick s device (edge + 1) }
    ensures near { IsNear link.now (edge + 1) result }
    ensures edge { edge < 2 ^ 21 }
{
    tick_of(link, jitters, device, edge + 1)
}

// The tick in which a device captures a SYSREF edge.
fn tick_of(link: &Link, jitters: &[Jitter], device: Device, edge: u32) -> u32
    requires paced { IsPaced link.now }
    requires place { link.now.timing.sysref_start + edge * link.now.timing.sysref_period ≤ 2 ^ 21 }
    requires jitters { All (λ j. IsTrue (jitter_fits j)) jitters.now }
    ensures tick { (s : Plan) → s.link ≡ link.now → s.jitters ≡ jitters.now
        → result ≡ edge_tick s device edge }
    ensures near { IsNear link.now edge result }
{
    let timing = link.timing();
    let nominal = timing.sysref_start + edge * timing.sysref_period;
    capture_tick(
        nominal,
        skew_of(&timing, device),
        jitter_of(jitters, device, edge),
    )
}

// How much later an edge comes at a device, in sixteenths of a tick.
fn skew_of(timing: &Timing, device: Device) -> u32
    ensures { result ≡ skew timing.now device }
{
    match device {
        Device::Tx => timing.tx_skew,
        Device::Rx => timing.rx_skew,
    }
}

// The jitter of an edge at a device, in sixteenths of a tick: that of the last record for it, or 0.
fn jitter_of(jitters: &[Jitter], device: Device, edge: u32) -> i32
    ensures { result ≡ jitter jitters.now device edge }
{
    let mut sixteenths = 0;
    for j in jitters {
        if j.edge == edge && is_device(device, j.device) {
            sixteenths = j.sixteenths;
        }
    }
    sixteenths
}

fn is_device(device: Device, other: Device) -> bool
    ensures { result ≡ is_device device other }
{
    match (device, other) {
        (Device::Tx, Device::Tx) | (Device::Rx, Device::Rx) => true,
        (Device::Tx, Device::Rx) | (Device::Rx, Device::Tx) => false,
    }
}
