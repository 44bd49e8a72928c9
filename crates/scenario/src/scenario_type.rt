//! A scenario.
ghost use Rattle.std.specs.Prelude.{◌≡◌, ◌<◌, ◌≤◌, ◌+◌, ◌*◌, ◌/◌, ◌%◌, ◌^◌, length, All, IsTrue, None, []};
ghost use Rattle.std.specs.List.Sorted.{IsNonDecreasingBy};
ghost use Rattle.std.specs.Option.{ForSome};
ghost use Rattle.scenario.specs.declared.plan.Event.{Event as EventValue};
ghost use Rattle.scenario.specs.declared.plan.Print.TheVariants as printed;
ghost use Rattle.link_params.specs.Numbers.{octets_per_tick};
ghost use Rattle.scenario.specs.Inputs.{input_words};
ghost use Rattle.scenario.specs.Limits.{event_fits, flip_fits, has_words, is_frames, is_order, jitter_fits, ramp_fits};
ghost use Rattle.scenario.specs.Reads.{copies, flipped};

use crate::input::Input;
use crate::plan::{Event, Flip, Jitter, Print};
use link_params::{Link, Shape};

/// What an input says: a shape of frames, and what is to be mapped, unmapped or run.
#[derive(Drop)]
pub struct Scenario {
    /// The version of the format, 1 or 2.
    pub version: u32,
    /// The parameters of the link, which obey their laws.
    pub shape: Shape,
    /// The link of a run; none for `map` and `unmap`.
    pub link: Option<Link>,
    /// The ticks of a run, at most 1,048,576; 0 for `map` and `unmap`.
    pub ticks: u32,
    /// The frames of a run that are printed; none for `map` and `unmap`.
    pub print: Print,
    /// The words that go in. For `map` those of the records `frame`, M·S for each frame, all below
    /// 2^(N+CS); none for `unmap`. A ramp only for a run.
    pub input: Input,
    /// The octets of the records `octets`: F of each lane for each record, lane after lane. None
    /// but for `unmap`.
    pub octets: Vec<u8>,
    /// The events of a run in the order of ticks, those of one tick in the order of their records.
    /// None for `map` and `unmap`.
    pub events: Vec<Event>,
    /// The jitters of a run, in the order of records; the last one for an edge of a device counts.
    /// None for `map` and `unmap`.
    pub jitters: Vec<Jitter>,
    /// The flips of a run. A bit that several cover is inverted where their number is odd. None for
    /// `map` and `unmap`.
    pub flips: Vec<Flip>,
    /// For each receiver lane the transmitter lane to which it is wired, counted from 0: each lane
    /// below L once.
    pub wire: Vec<u32>,
    /// For each receiver lane the lane of the frame that it is set to be: each lane below L once.
    pub route: Vec<u32>,
    /// For each receiver lane whether all its bits are inverted: its wires are exchanged and the
    /// receiver does not undo it, or the other way round.
    pub inverted: Vec<bool>,
    pub ghost whole_frames: { length (input_words input) % (shape.m * shape.s) ≡ 0 },
    pub ghost words_fit: { All (λ w. w < 2 ^ (shape.n + shape.cs)) (input_words input) },
    pub ghost whole_octets: { length octets.items % (shape.l * shape.f) ≡ 0 },
    pub ghost ramp_fits: { IsTrue (ramp_fits shape input) },
    pub ghost few_ticks: { ticks ≤ 1048576 },
    pub ghost few_octets: { ticks * shape.l * octets_per_tick shape ≤ 4194304 },
    pub ghost few_words: { copies print * (ticks * octets_per_tick shape / shape.f) * (shape.m * shape.s)
        ≤ 2097152 },
    pub ghost events_fit: { All (λ e. IsTrue (event_fits shape ticks e)) events.items },
    pub ghost jitters_fit: { All (λ j. IsTrue (jitter_fits j)) jitters.items },
    pub ghost flips_fit: { All (λ f. IsTrue (flip_fits shape ticks f)) flips.items },
    pub ghost events_ordered: { IsNonDecreasingBy (λ (e : EventValue). e.tick) events.items },
    pub ghost few_events: { length events.items + length jitters.items ≤ 4096 },
    pub ghost few_flips: { flipped flips.items ≤ 65536 },
    pub ghost wire_lanes: { IsTrue (is_order shape.l wire.items) },
    pub ghost route_lanes: { IsTrue (is_order shape.l route.items) },
    pub ghost all_polarities: { length inverted.items ≡ shape.l },
    pub ghost same_shape: { ForSome link (λ k. k.params ≡ shape) },
    pub ghost some_ticks: { ForSome link (λ k. 1 ≤ ticks) },
    pub ghost some_words: { ForSome link (λ k. IsTrue (has_words input)) },
    pub ghost no_ticks: { link ≡ None → ticks ≡ 0 },
    pub ghost no_print: { link ≡ None → print ≡ printed.None },
    pub ghost no_ramp: { link ≡ None → IsTrue (is_frames input) },
    pub ghost no_events: { link ≡ None → events.items ≡ [] },
    pub ghost no_jitters: { link ≡ None → jitters.items ≡ [] },
    pub ghost no_flips: { link ≡ None → flips.items ≡ [] },
}
