//! The capture of SYSREF edges.
ghost use Rattle.std.specs.Prelude.{◌≡◌, ◌≤◌, ◌^◌, ◌≤ℤ◌, pos, negsuc};
ghost use Rattle.sysref_clock.specs.Clocks.{captured, place_of_edge};

/// The tick in which a device captures a SYSREF edge (JESD204B.01 clause 6, "Deterministic latency"): the first
/// one that is not before the edge. `nominal` is the tick of the edge at its source; `skew` and `jitter`, by which
/// it comes later or earlier at the device, are in sixteenths of a tick.
pub fn capture_tick(nominal: u32, skew: u32, jitter: i32) -> u32
    requires nominal { nominal ≤ 2 ^ 21 }
    requires skew { skew ≤ 2 ^ 15 }
    requires earliest { negsuc 31 ≤ℤ jitter }
    requires latest { jitter ≤ℤ pos 32 }
    requires place { pos 0 ≤ℤ place_of_edge nominal skew jitter }
    ensures { result ≡ captured nominal skew jitter }
{
    let place = (16 * nominal + skew) as i32 + jitter;
    (place as u32).div_ceil(16)
}
