//! The delays, jitters and flips that are drawn from a number.
ghost use Rattle.std.specs.Prelude.{◌≡◌, ◌≤◌, ◌+◌, ◌*◌, ℕ, List, map, IfOk, OnOk};
ghost use Rattle.link_params.specs.declared.fields.Params.{Params as ParamsValue};
ghost use Rattle.scenario.specs.Generated.{drawn_delay, drawn_flip, drawn_jitter, latest, state};
ghost use Rattle.scenario.specs.Plans.{numbers_from};

use crate::drawn_parts::{drawn_delay, drawn_flip, drawn_jitter};
use crate::draws::Draws;
use crate::plan::{Event, Flip, Jitter};
use link_params::{Link, Shape};
use std::alloc::{AllocError, Global};

/// How many edges of the transmitter have jitter.
const JITTERS: u32 = 8;
/// How many flips there are.
const FLIPS: u32 = 16;

/// The delay of each lane, with room for one event more. The error is want of memory.
pub fn drawn_delays(alloc: Global, link: &Link, draws: &mut Draws) -> Result<Vec<Event>, AllocError>
    requires some { 1 ≤ link.now.timing.w_hi }
    requires few { link.now.timing.w_hi ≤ 512 }
    ensures answer { IfOk result (λ events. (number : ℕ) → draws.old.state ≡ state number 6
        → link.now.timing.w_hi ≡ latest number link.now.params → events.items
        ≡ map (drawn_delay number link.now.params) (numbers_from 0 link.now.params.l)) }
    ensures state { OnOk result ((number : ℕ) → draws.old.state ≡ state number 6
        → draws.new.state ≡ state number (6 + 2 * link.now.params.l)) }
{
    let lanes = link.shape().lanes();
    let mut events = Vec::with_capacity(alloc, lanes as usize + 1)?;
    for lane in 0..lanes {
        events.push(drawn_delay(link, lane, draws))?;
    }
    Ok(events)
}

/// The jitters of the first eight edges of the transmitter. The error is want of memory.
pub fn drawn_jitters(alloc: Global, draws: &mut Draws) -> Result<Vec<Jitter>, AllocError>
    ensures answer { IfOk result (λ jitters. (number : ℕ) (p : ParamsValue)
        → draws.old.state ≡ state number (6 + 2 * p.l)
        → jitters.items ≡ map (drawn_jitter number p) (numbers_from 0 8)) }
    ensures state { OnOk result ((number k : ℕ) → draws.old.state ≡ state number k
        → draws.new.state ≡ state number (k + 8)) }
{
    let mut jitters = Vec::with_capacity(alloc, JITTERS as usize)?;
    for edge in 0..JITTERS {
        jitters.push(drawn_jitter(edge, draws))?;
    }
    Ok(jitters)
}

/// The sixteen flips of received bits. The error is want of memory.
pub fn drawn_flips(alloc: Global, shape: &Shape, draws: &mut Draws) -> Result<Vec<Flip>, AllocError>
    ensures { IfOk result (λ flips. (number : ℕ)
        → draws.old.state ≡ state number (15 + 2 * shape.now.l)
        → flips.items ≡ map (drawn_flip number shape.now) (numbers_from 0 16)) }
{
    let mut flips = Vec::with_capacity(alloc, FLIPS as usize)?;
    for _flip in 0..FLIPS {
        flips.push(drawn_flip(shape, draws))?;
    }
    Ok(flips)
}
