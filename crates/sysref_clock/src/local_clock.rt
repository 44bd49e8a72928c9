//! The local clock of a device.
ghost use Rattle.std.specs.Prelude.{◌≡◌, ◌<◌, ◌++◌, ◌∷◌, [], ℕ, Bool, List, Option, IfSome};
ghost use Rattle.sysref_clock.specs.Clocks.{off_after, phase_after};
ghost use Rattle.sysref_clock.specs.kept.Ticks.{HasTicked};

use crate::clock_tick::ClockTick;
use std::marker::Model;

/// A clock that SYSREF aligns, as the local multiframe clock (JESD204B.01 clause 6, "Deterministic latency"). It is
/// seen as its period and its phase in the last tick.
#[derive(Debug, Drop)]
pub struct LocalClock {
    period: u32,
    phase: Option<u32>,
}

impl Model for LocalClock {
    ghost use Rattle.std.specs.Prelude.{◌<◌, IfSome};
    ghost use Rattle.sysref_clock.specs.kept.Ticks.{Clock};

    ghost Value = { Clock };

    ghost view = { λ c. record { period = c.period; phase = c.phase } };

    ghost invariant = { λ c. (0 < c.period) × IfSome c.phase (λ p. p < c.period) };
}

impl LocalClock {
    /// A clock of `period` ticks that has no phase yet.
    pub fn new(period: u32) -> LocalClock
        requires { 0 < period }
        ensures { HasTicked result period [] }
    {
        LocalClock {
            period,
            phase: None,
        }
    }

    /// A reset of the device: the clock has no phase until the next edge.
    pub fn clear(&mut self)
        ensures { (period : ℕ) (edges : List Bool) → HasTicked self.old period edges → HasTicked self.new period [] }
    {
        self.phase = None;
    }

    /// The next tick, and whether a SYSREF edge is captured in it. The first edge since the clock was made or
    /// cleared sets the phase to 0. A later edge changes nothing, and `off` tells it where the phase is not 0.
    pub fn tick(&mut self, edge: bool) -> ClockTick
        ensures answer { (period : ℕ) (edges : List Bool) → HasTicked self.old period edges
            → result ≡ record { phase = phase_after period (edges ++ edge ∷ []); off = off_after period (edges ++ edge ∷ []) } }
        ensures goes_on { (period : ℕ) (edges : List Bool) → HasTicked self.old period edges
            → HasTicked self.new period (edges ++ edge ∷ []) }
    {
        self.phase = next_phase(self.period, self.phase, edge);
        ClockTick {
            phase: self.phase,
            off: off_phase(self.phase, edge),
        }
    }
}

// The phase a tick later.
fn next_phase(period: u32, phase: Option<u32>, edge: bool) -> Option<u32>
    requires period { 0 < period }
    requires phase { IfSome phase (λ p. p < period) }
    ensures below { IfSome result (λ p. p < period) }
    ensures is { (edges : List Bool) → phase ≡ phase_after period edges → result ≡ phase_after period (edges ++ edge ∷ []) }
{
    match phase {
        Some(p) if p + 1 < period => Some(p + 1),
        Some(_) => Some(0),
        None if edge => Some(0),
        None => None,
    }
}

// The phase of an edge that comes at this phase, where it is above 0.
fn off_phase(phase: Option<u32>, edge: bool) -> Option<u32>
    ensures { (period : ℕ) (edges : List Bool) → phase ≡ phase_after period (edges ++ edge ∷ [])
        → result ≡ off_after period (edges ++ edge ∷ []) }
{
    match phase {
        Some(p) if edge && p > 0 => Some(p),
        _ => None,
    }
}
