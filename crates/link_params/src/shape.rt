//! Parameters that obey their laws.
ghost use Rattle.std.specs.Prelude.{◌≡◌, ◌≤◌, ◌<◌, ◌+◌, ◌*◌, None, MatchResult, Some};
ghost use Rattle.link_params.specs.Laws.{broken_law};
ghost use Rattle.link_params.specs.Numbers.{width, period, octets_per_tick, wait};
ghost use Rattle.link_params.specs.TimingLaws.{broken_timing};

use crate::check::{first_broken_law, is_mode_b};
use crate::fields::{Params, Timing};
use crate::law::Law;
use crate::link::Link;
use crate::timing_check::first_broken_timing;
use std::marker::Model;

/// Parameters that obey laws 1 to 12. Contracts see it as the parameters.
#[derive(Clone, Copy, Debug)]
pub struct Shape {
    params: Params,
}

impl Model for Shape {
    ghost use Rattle.std.specs.Prelude.{◌≡◌, None};
    ghost use Rattle.link_params.specs.declared.fields.Params.{Params};
    ghost use Rattle.link_params.specs.Laws.{broken_law};

    ghost Value = { Params };

    ghost view = { λ s. s.params };

    ghost invariant = { λ s. broken_law s.params ≡ None };

    ghost inverse = { λ p. record { params = p } };
}

impl Params {
    /// The shape, or the number of the first of laws 1 to 12 that is broken.
    pub fn check(&self) -> Result<Shape, Law>
        ensures { MatchResult result (λ s. (s ≡ self.now) × (broken_law self.now ≡ None))
            (λ law. broken_law self.now ≡ Some law.0) }
    {
        match first_broken_law(self) {
            None => Ok(Shape { params: *self }),
            Some(law) => Err(Law(law)),
        }
    }
}

impl Shape {
    /// The parameters that it was made from.
    pub fn params(&self) -> Params
        ensures same { result ≡ self.now }
        ensures legal { broken_law self.now ≡ None }
    {
        self.params
    }

    /// The link with this timing, or the number of the first of laws 13 to 17 that is broken.
    pub fn with(&self, timing: &Timing) -> Result<Link, Law>
        ensures { MatchResult result
            (λ link. (link ≡ record { params = self.now; timing = timing.now }) × (broken_timing self.now timing.now ≡ None))
            (λ law. broken_timing self.now timing.now ≡ Some law.0) }
    {
        match first_broken_timing(self, timing) {
            None => Ok(Link::of(*self, *timing)),
            Some(law) => Err(Law(law)),
        }
    }

    /// The period in ticks: a multiframe of F·K octets with 8b/10b lanes, an extended multiblock of 32·E blocks otherwise.
    pub fn period(&self) -> u32
        ensures value { result ≡ period self.now }
        ensures low { 17 ≤ result }
        ensures high { result ≤ 1024 }
    {
        if is_mode_b(self.params.mode) {
            self.params.f * self.params.k
        } else {
            32 * self.params.e
        }
    }

    /// The octets of a tick on a lane: 1 or 8.
    pub fn octets_per_tick(&self) -> u32
        ensures value { result ≡ octets_per_tick self.now }
        ensures bound { result ≤ 8 }
    {
        if is_mode_b(self.params.mode) { 1 } else { 8 }
    }

    /// How long a block waits for its check, in ticks: 64, or 0 with 8b/10b lanes.
    pub fn wait(&self) -> u32
        ensures value { result ≡ wait self.now }
        ensures bound { result ≤ 64 }
    {
        if is_mode_b(self.params.mode) { 0 } else { 64 }
    }

    /// The bits of a tick on a lane: 10 or 66.
    pub fn width(&self) -> u32
        ensures value { result ≡ width self.now }
        ensures bound { result ≤ 66 }
    {
        if is_mode_b(self.params.mode) { 10 } else { 66 }
    }

    /// L, the lanes.
    pub fn lanes(&self) -> u32
        ensures value { result ≡ self.now.l }
        ensures some { 1 ≤ result }
        ensures bound { result ≤ 32 }
    {
        self.params.l
    }

    /// F, the octets of a frame on a lane.
    pub fn frame_octets(&self) -> u32
        ensures value { result ≡ self.now.f }
        ensures some { 1 ≤ result }
        ensures bound { result ≤ 256 }
    {
        self.params.f
    }

    /// M·S, the words of a frame.
    pub fn frame_words(&self) -> u32
        ensures value { result ≡ self.now.m * self.now.s }
        ensures some { 1 ≤ result }
        ensures bound { result ≤ 8192 }
    {
        self.params.m * self.params.s
    }

    /// N + CS, the bits of a word that carry a sample and its control bits.
    pub fn word_bits(&self) -> u32
        ensures value { result ≡ self.now.n + self.now.cs }
        ensures some { 1 ≤ result }
        ensures bound { result ≤ 32 }
    {
        self.params.n + self.params.cs
    }
}
