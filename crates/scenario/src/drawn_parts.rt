//! Events, jitters and flips, one at a time, that are drawn from a number.
ghost use Rattle.std.specs.Prelude.{◌≡◌, ◌<◌, ◌≤◌, ◌+◌, ◌-◌, ◌*◌, ℕ, pos, ◌-ℤ◌};
ghost use Rattle.link_params.specs.declared.fields.Params.{Params as ParamsValue};
ghost use Rattle.link_params.specs.declared.alarms.Device.TheVariants as device;
ghost use Rattle.link_params.specs.Numbers.{width};
ghost use Rattle.scenario.specs.Generated.{draw, drawn_delay, drawn_flip, drawn_jitter, drawn_reset, latest, state};

use crate::draws::Draws;
use crate::plan::{Event, Flip, Jitter, What};
use link_params::{Device, Link, Shape};

/// The ticks of a run that is made from a number. A device is reset in the middle of them.
pub const TICKS: u32 = 16_384;
/// The most bits of a flip.
const MOST_BITS: u32 = 9;

/// The delay of a lane of the link before anything is sent: it arrives after 1 to `w_hi` ticks,
/// some bits early.
pub fn drawn_delay(link: &Link, lane: u32, draws: &mut Draws) -> Event
    requires some { 1 ≤ link.now.timing.w_hi }
    requires few { link.now.timing.w_hi ≤ 512 }
    ensures answer { (number : ℕ) → draws.old.state ≡ state number (6 + 2 * lane)
        → link.now.timing.w_hi ≡ latest number link.now.params
        → result ≡ drawn_delay number link.now.params lane }
    ensures state { (number k : ℕ) → draws.old.state ≡ state number k
        → draws.new.state ≡ state number (k + 2) }
{
    let latest = link.timing().w_hi;
    let width = link.shape().width();
    let ticks = 1 + draws.draw(latest);
    let early = draws.draw(width);
    Event {
        tick: 0,
        what: What::Delay {
            lane,
            bits: ticks * width - early,
        },
    }
}

/// The jitter of an edge of the transmitter, counted from 0: up to seven sixteenths of a tick.
pub fn drawn_jitter(edge: u32, draws: &mut Draws) -> Jitter
    ensures answer { (number : ℕ) (p : ParamsValue)
        → draws.old.state ≡ state number (6 + 2 * p.l + edge)
        → result ≡ drawn_jitter number p edge }
    ensures state { (number k : ℕ) → draws.old.state ≡ state number k
        → draws.new.state ≡ state number (k + 1) }
{
    let late = draws.draw(15);
    Jitter {
        device: Device::Tx,
        edge,
        sixteenths: late as i32 - 7,
    }
}

/// The reset of a device in the middle of the run.
pub fn drawn_reset(draws: &mut Draws) -> Event
    ensures answer { (number : ℕ) (p : ParamsValue)
        → draws.old.state ≡ state number (14 + 2 * p.l) → result ≡ drawn_reset number p }
    ensures state { (number k : ℕ) → draws.old.state ≡ state number k
        → draws.new.state ≡ state number (k + 1) }
{
    let device = match draws.draw(2) {
        0 => Device::Tx,
        _ => Device::Rx,
    };
    Event {
        tick: TICKS / 2,
        what: What::Reset(device),
    }
}

/// A flip of one to nine received bits of a lane.
pub fn drawn_flip(shape: &Shape, draws: &mut Draws) -> Flip
    ensures answer { (number i : ℕ)
        → draws.old.state ≡ state number (15 + 2 * shape.now.l + 3 * i)
        → result ≡ drawn_flip number shape.now i }
    ensures state { (number k : ℕ) → draws.old.state ≡ state number k
        → draws.new.state ≡ state number (k + 3) }
{
    let lane = draws.draw(shape.lanes());
    let first = draws.draw(shape.width() * TICKS - MOST_BITS);
    let count = 1 + draws.draw(MOST_BITS);
    Flip {
        lane,
        first: u64::from(first),
        count,
    }
}
