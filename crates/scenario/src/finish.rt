//! The scenario that the records spell.
ghost use Rattle.std.specs.Prelude.{◌≡◌, ◌==◌, ◌-◌, ◌<◌, ◌^◌, ◌⊎◌, ℕ, if◌then◌else◌, All, IfOk, OnOk};
ghost use Rattle.std.specs.List.Sorted.{IsNonDecreasingBy, IsPermutation};
ghost use Rattle.scenario.specs.declared.plan.Event.{Event as EventValue};
ghost use Rattle.scenario.specs.declared.stage.Stage.TheVariants as stage;
ghost use Rattle.scenario.specs.Reads.{ended};
ghost use Rattle.scenario.specs.kept.Sound.{IsSound};
ghost use Rattle.scenario.specs.Plans.{in_order, is_inverted_lane, source_in, source_of, inverted_lanes};
ghost use Rattle.scenario.specs.Answer.{Answers, Holds, seen_of};

use crate::cause::Cause;
use crate::fault::ScenarioFault;
use crate::input::Input;
use crate::plan::{Event, Print};
use crate::reading::Reading;
use crate::scenario_type::Scenario;
use crate::stage::{Polarity, Ramp, Setup, Stage};
use crate::wiring::{all_lanes, lanes_or};
use link_params::Shape;
use std::alloc::{AllocError, Global};

/// The words that go in: those of the ramp, or of the frames; with neither they count from 0.
fn input_of(ramp: Option<Ramp>, words: Vec<u32>) -> Input
    ensures { source_in result ≡ source_of ramp words.items }
{
    match ramp {
        Some(ramp) => Input::Ramp {
            start: ramp.start,
            step: ramp.step,
        },
        None => {
            if words.as_slice().is_empty() {
                Input::Ramp { start: 0, step: 1 }
            } else {
                Input::Frames(words)
            }
        }
    }
}

/// Puts events in the order of ticks; those of one tick keep their order.
fn sort_events(events: &mut Vec<Event>) -> Result<(), AllocError>
    ensures order { OnOk result ((ticks : ℕ) → All (λ e. e.tick < ticks) events.new.items
        → in_order ticks events.old.items ≡ events.new.items) }
    ensures same { IsPermutation events.old.items events.new.items }
    ensures sorted { OnOk result (IsNonDecreasingBy (λ (e : EventValue). e.tick) events.new.items) }
{
    events.sort_by_key(|event| event.tick)
}

/// Whether all bits of a lane are inverted, by the last record for it.
fn is_inverted_lane(polarities: &[Polarity], lane: u32) -> bool
    ensures { result ≡ is_inverted_lane polarities.now lane }
{
    let mut inverted = false;
    for polarity in polarities {
        inverted = inverted_by(lane, inverted, polarity);
    }
    inverted
}

// The same once one more record is seen.
fn inverted_by(lane: u32, before: bool, polarity: &Polarity) -> bool
    ensures { result ≡ (if polarity.now.lane == lane then polarity.now.inverted else before) }
{
    if polarity.lane == lane {
        polarity.inverted
    } else {
        before
    }
}

/// The same of each lane. The error is want of memory.
fn inverted_lanes(
    alloc: Global,
    count: u32,
    polarities: &[Polarity],
) -> Result<Vec<bool>, AllocError>
    ensures { IfOk result (λ v. v.items ≡ inverted_lanes count polarities.now) }
{
    let mut lanes = Vec::new(alloc);
    for lane in 0..count {
        lanes.push(is_inverted_lane(polarities, lane))?;
    }
    Ok(lanes)
}

impl Reading {
    /// What is to be mapped or unmapped.
    fn mapped(self, alloc: Global, shape: Shape) -> Result<Scenario, AllocError>
        requires place { (self.stage ≡ stage.Frames shape) ⊎ (self.stage ≡ stage.Octets shape) }
        requires sound { IsSound (seen_of self) }
        ensures { IfOk result (λ s. Holds s (seen_of self)) }
    {
        let Reading {
            version,
            words,
            octets,
            events,
            jitters,
            flips,
            ..
        } = self;
        let lanes = shape.lanes();
        Ok(Scenario {
            version,
            shape,
            link: None,
            ticks: 0,
            print: Print::None,
            input: Input::Frames(words),
            octets,
            events,
            jitters,
            flips,
            wire: all_lanes(alloc, lanes)?,
            route: all_lanes(alloc, lanes)?,
            inverted: inverted_lanes(alloc, lanes, &[])?,
        })
    }

    /// The scenario of a run.
    fn planned(self, alloc: Global, setup: Setup) -> Result<Scenario, AllocError>
        requires place { self.stage ≡ stage.Body setup }
        requires sound { IsSound (seen_of self) }
        ensures { IfOk result (λ s. Holds s (seen_of self)) }
    {
        let Reading {
            version,
            words,
            octets,
            mut events,
            jitters,
            flips,
            wire,
            route,
            polarities,
            ..
        } = self;
        sort_events(&mut events)?;
        let shape = setup.link.shape();
        let lanes = shape.lanes();
        let wire = lanes_or(alloc, wire, lanes)?;
        let route = lanes_or(alloc, route, lanes)?;
        let inverted = inverted_lanes(alloc, lanes, polarities.as_slice())?;
        Ok(Scenario {
            version,
            shape,
            link: Some(setup.link),
            ticks: setup.ticks,
            print: setup.print,
            input: input_of(setup.ramp, words),
            octets,
            events,
            jitters,
            flips,
            wire,
            route,
            inverted,
        })
    }

    /// The scenario, if the required records were read.
    pub fn finish(self, alloc: Global, rows: u32) -> Result<Scenario, ScenarioFault>
        requires few { rows < 2 ^ 32 - 1 }
        requires sound { IsSound (seen_of self) }
        ensures { Answers (ended rows (seen_of self)) result }
    {
        match &self.stage {
            Stage::Frames(shape) | Stage::Octets(shape) => {
                let shape = *shape;
                match self.mapped(alloc, shape) {
                    Ok(scenario) => Ok(scenario),
                    Err(_) => Err(ScenarioFault::NoMemory),
                }
            }
            Stage::Body(setup) => {
                let setup = *setup;
                match self.planned(alloc, setup) {
                    Ok(scenario) => Ok(scenario),
                    Err(_) => Err(ScenarioFault::NoMemory),
                }
            }
            Stage::Version => Err(ScenarioFault::Bad {
                row: 0,
                cause: Cause::NoRecord.number(),
                at: 0,
            }),
            _ => Err(ScenarioFault::Bad {
                row: rows + 1,
                cause: Cause::Missing.number(),
                at: 0,
            }),
        }
    }
}
