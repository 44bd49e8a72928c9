//! The scenario that is made from a number.
ghost use Rattle.std.specs.Prelude.{◌≡◌, ◌≤◌, ◌+◌, ◌*◌, [], IfOk, Some, false, replicate};
ghost use Rattle.scenario.specs.Generated.{generated};
ghost use Rattle.scenario.specs.Plans.{plan_of};

use crate::drawn_link::{drawn_link, drawn_shape};
use crate::drawn_lists::{drawn_delays, drawn_flips, drawn_jitters};
use crate::drawn_parts::{TICKS, drawn_reset};
use crate::draws::Draws;
use crate::input::Input;
use crate::plan::Print;
use crate::scenario_type::Scenario;
use crate::wiring::all_lanes;
use jesd_base::NoMemory;
use std::alloc::{AllocError, Global};

// No lane whose bits are inverted. The error is want of memory.
fn none_inverted(alloc: Global, count: u32) -> Result<Vec<bool>, AllocError>
    ensures { IfOk result (λ v. v.items ≡ replicate count false) }
{
    vec![in alloc; false; count as usize]
}

fn drawn_scenario(alloc: Global, number: u32) -> Result<Scenario, AllocError>
    ensures plan { IfOk result (λ s. plan_of s ≡ Some (generated number)) }
    ensures octets { IfOk result (λ s. s.octets.items ≡ []) }
{
    let mut draws = Draws::of(number);
    let shape = drawn_shape(&mut draws);
    let link = drawn_link(&shape, &mut draws);
    let mut events = drawn_delays(alloc, &link, &mut draws)?;
    let jitters = drawn_jitters(alloc, &mut draws)?;
    events.push(drawn_reset(&mut draws))?;
    let flips = drawn_flips(alloc, &shape, &mut draws)?;
    let lanes = shape.lanes();
    Ok(Scenario {
        version: 1,
        shape,
        link: Some(link),
        ticks: TICKS,
        print: Print::None,
        input: Input::Ramp { start: 0, step: 1 },
        octets: Vec::new(alloc),
        events,
        jitters,
        flips,
        wire: all_lanes(alloc, lanes)?,
        route: all_lanes(alloc, lanes)?,
        inverted: none_inverted(alloc, lanes)?,
    })
}

/// The scenario of a number, the same each time: a run of 16,384 ticks of a link with one to eight
/// lanes of any mode. Each lane has a delay, the first eight SYSREF edges of the transmitter have
/// jitter, a device is reset in tick 8,192, and sixteen times up to nine received bits of a lane
/// are inverted. The words count from 0, and no frame is printed. All of it is in range, and obeys
/// the laws of a link. The only other answer is `NoMemory`.
pub fn gen_scenario(alloc: Global, number: u32) -> Result<Scenario, NoMemory>
    ensures plan { IfOk result (λ s. plan_of s ≡ Some (generated number)) }
    ensures octets { IfOk result (λ s. s.octets.items ≡ []) }
{
    match drawn_scenario(alloc, number) {
        Ok(scenario) => Ok(scenario),
        Err(_) => Err(NoMemory),
    }
}
