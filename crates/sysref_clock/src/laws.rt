//! Laws of captured edges and of phases.
ghost use Rattle.sysref_clock.specs.laws.ClockLaws.{CapturedIsLeast, NextPhase, PhaseIsOfFirst};

/// In which tick an edge is captured, and how phases go on (JESD204B.01 clause 6, "Deterministic latency").
pub fn clock_laws()
    ensures captured { CapturedIsLeast }
    ensures first { PhaseIsOfFirst }
    ensures next { NextPhase }
{}
