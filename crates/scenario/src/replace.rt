//! Other words in a scenario.
ghost use Rattle.std.specs.Prelude.{◌≡◌, ◌<◌, ◌≤◌, ◌+◌, ◌*◌, ◌%◌, ◌^◌, length, All};
ghost use Rattle.scenario.specs.declared.input.Input.TheVariants.{Frames};

use crate::input::Input;
use crate::scenario_type::Scenario;

/// The scenario with these words in place of its input. They are whole frames, of M·S words each,
/// and at least one; each word is below 2^(N+CS). All else stays as it is.
pub fn replace_frames(s: Scenario, words: Vec<u32>) -> Scenario
    requires whole { length words.items % (s.shape.m * s.shape.s) ≡ 0 }
    requires some { 1 ≤ length words.items }
    requires below { All (λ w. w < 2 ^ (s.shape.n + s.shape.cs)) words.items }
    ensures input { result.input ≡ Frames words }
    ensures shape { result.shape ≡ s.shape }
    ensures link { result.link ≡ s.link }
    ensures ticks { result.ticks ≡ s.ticks }
    ensures print { result.print ≡ s.print }
    ensures octets { result.octets ≡ s.octets }
    ensures events { result.events ≡ s.events }
    ensures jitters { result.jitters ≡ s.jitters }
    ensures flips { result.flips ≡ s.flips }
    ensures version { result.version ≡ s.version }
    ensures wire { result.wire ≡ s.wire }
    ensures route { result.route ≡ s.route }
    ensures inverted { result.inverted ≡ s.inverted }
{
    let Scenario {
        version,
        shape,
        link,
        ticks,
        print,
        octets,
        events,
        jitters,
        flips,
        wire,
        route,
        inverted,
        ..
    } = s;
    Scenario {
        version,
        shape,
        link,
        ticks,
        print,
        input: Input::Frames(words),
        octets,
        events,
        jitters,
        flips,
        wire,
        route,
        inverted,
    }
}
