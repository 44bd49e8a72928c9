//! A link: a shape and a timing that obey all laws.
ghost use Rattle.std.specs.Prelude.{◌≡◌, ◌≤◌, ◌<◌, ◌+◌, ◌^◌, None};
ghost use Rattle.link_params.specs.Numbers.{period, wait, tx_edge, rx_edge, lat_ticks, latency, depth, bound};
ghost use Rattle.link_params.specs.TimingLaws.{broken_timing};
ghost use Rattle.link_params.specs.Laws.{broken_law};
ghost use Rattle.link_params.specs.Lanes.{is_inside};

use crate::fields::Timing;
use crate::shape::Shape;
use crate::timing_check::{latency_of, ticks_of};
use std::marker::Model;

/// A link: parameters that obey laws 1 to 12 and a timing that obeys laws 13 to 17. Contracts see it as these two.
#[derive(Clone, Copy, Debug)]
pub struct Link {
    shape: Shape,
    timing: Timing,
}

impl Model for Link {
    ghost use Rattle.std.specs.Prelude.{◌≡◌, None};
    ghost use Rattle.link_params.specs.Links.{Link as LinkValue};
    ghost use Rattle.link_params.specs.TimingLaws.{broken_timing};

    ghost Value = { LinkValue };

    ghost view = { λ s. record { params = s.shape; timing = s.timing } };

    ghost invariant = { λ s. broken_timing s.shape s.timing ≡ None };

    ghost inverse = { λ k. record { shape = k.params; timing = k.timing } };
}

impl Link {
    pub(crate) fn of(shape: Shape, timing: Timing) -> Link
        requires { broken_timing shape timing ≡ None }
        ensures { result ≡ record { params = shape; timing = timing } }
    {
        Link { shape, timing }
    }

    /// The shape that it was made from.
    pub fn shape(&self) -> Shape
        ensures same { result ≡ self.now.params }
        ensures legal { broken_law self.now.params ≡ None }
    {
        let _params = self.shape.params();
        self.shape
    }

    /// The timing that it was made from.
    pub fn timing(&self) -> Timing
        ensures same { result ≡ self.now.timing }
        ensures legal { broken_timing self.now.params self.now.timing ≡ None }
    {
        self.timing
    }

    /// Whether a lane that starts at this offset, in ticks, is inside the window.
    pub fn is_inside(&self, offset: u32) -> bool
        ensures { result ≡ is_inside self.now.timing offset }
    {
        self.timing.w_lo <= offset && offset <= self.timing.w_hi
    }

    /// The tick in which the transmitter captures the first SYSREF edge, without jitter.
    pub fn tx_edge(&self) -> u32
        ensures value { result ≡ tx_edge self.now.timing }
        ensures bound { result < 2 ^ 21 }
    {
        self.timing.sysref_start + ticks_of(self.timing.tx_skew)
    }

    /// The tick in which the receiver captures the first SYSREF edge, without jitter.
    pub fn rx_edge(&self) -> u32
        ensures value { result ≡ rx_edge self.now.timing }
        ensures bound { result < 2 ^ 21 }
    {
        self.timing.sysref_start + ticks_of(self.timing.rx_skew)
    }

    /// How long a block waits for its check, in ticks: 64, or 0 with 8b/10b lanes.
    pub fn wait(&self) -> u32
        ensures value { result ≡ wait self.now.params }
        ensures bound { result ≤ 64 }
    {
        self.shape.wait()
    }

    /// The latency in ticks.
    pub fn lat_ticks(&self) -> u32
        ensures value { result ≡ lat_ticks self.now.params self.now.timing }
        ensures from { self.now.timing.w_hi + wait self.now.params ≤ result }
        ensures below { result < self.now.timing.w_lo + wait self.now.params + period self.now.params }
        ensures bound { result < 2112 }
    {
        latency_of(&self.shape, &self.timing)
    }

    /// The latency in octets, from a frame's entering to its leaving.
    pub fn latency(&self) -> u32
        ensures value { result ≡ latency self.now.params self.now.timing }
        ensures bound { result < 16896 }
    {
        self.lat_ticks() * self.shape.octets_per_tick()
    }

    /// The entries that a lane's elastic buffer has room for.
    pub fn depth(&self) -> u32
        ensures value { result ≡ depth self.now.params self.now.timing }
        ensures some { 1 ≤ result }
        ensures within { result ≤ period self.now.params }
    {
        self.lat_ticks() - self.wait() - self.timing.w_lo + 1
    }

    /// The ticks from a hunt's beginning within which a running link is to deliver a frame, where its line is
    /// undisturbed and its edges and lanes meet their windows. This is the number alone.
    pub fn bound(&self) -> u32
        ensures value { result ≡ bound self.now.params self.now.timing }
        ensures bound { result < 2 ^ 21 }
    {
        self.timing.sysref_period + 32 * self.shape.period() + 8 * self.wait() + 256
    }
}
