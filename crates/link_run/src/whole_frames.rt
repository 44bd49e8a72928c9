//! The frames of a tick.
ghost use Rattle.std.specs.Prelude.{◌≡◌, ◌<◌, ◌≤◌, ◌*◌};
ghost use Rattle.link_params.specs.Numbers.{octets_per_tick};

use link_params::Shape;

/// How many frames a tick has, where each tick has whole ones; else 0.
pub(crate) fn whole_frames(shape: &Shape) -> u32
    ensures whole { 0 < result → result * shape.now.f ≡ octets_per_tick shape.now }
    ensures few { result ≤ 8 }
{
    let (size, per_tick) = (shape.frame_octets(), shape.octets_per_tick());
    if per_tick % size == 0 {
        per_tick / size
    } else {
        0
    }
}
