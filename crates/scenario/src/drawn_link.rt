//! The link that is drawn from a number.
ghost use Rattle.std.specs.Prelude.{◌≡◌, ◌<◌, ◌≤◌, ◌+◌, ◌*◌, ◌/◌, ℕ, None};
ghost use Rattle.link_params.specs.Laws.{broken_law};
ghost use Rattle.link_params.specs.Numbers.{period};
ghost use Rattle.link_params.specs.TimingLaws.{broken_timing};
ghost use Rattle.scenario.specs.Generated.{draw, drawn_params, drawn_timing, mode_of_draw, params_with, state};

use crate::draws::Draws;
use link_params::{Link, Mode, Params, Shape, Timing};

fn drawn_mode(draws: &mut Draws) -> Mode
    ensures answer { (number k : ℕ) → draws.old.state ≡ state number k
        → result ≡ mode_of_draw (draw number k 3) }
    ensures state { (number k : ℕ) → draws.old.state ≡ state number k
        → draws.new.state ≡ state number (k + 1) }
{
    match draws.draw(3) {
        0 => Mode::B,
        1 => Mode::CCrc,
        _ => Mode::CFec,
    }
}

// Each lane has a converter, with one sample of 16 bits in a frame of two octets.
fn params_with(mode: Mode, lanes: u32, multiblocks: u32) -> Params
    requires some_lanes { 1 ≤ lanes }
    requires few_lanes { lanes ≤ 8 }
    requires some_multiblocks { 1 ≤ multiblocks }
    requires few_multiblocks { multiblocks ≤ 4 }
    ensures value { result ≡ params_with mode lanes multiblocks }
    ensures legal { broken_law result ≡ None }
{
    let (k, e) = match mode {
        Mode::B => (32, 0),
        Mode::CCrc | Mode::CFec => (0, multiblocks),
    };
    Params {
        mode,
        l: lanes,
        m: lanes,
        f: 2,
        s: 1,
        n: 16,
        np: 16,
        cs: 0,
        hd: false,
        scr: true,
        k,
        e,
    }
}

fn drawn_params(draws: &mut Draws) -> Params
    ensures answer { (number : ℕ) → draws.old.state ≡ state number 0
        → result ≡ drawn_params number }
    ensures state { (number : ℕ) → draws.old.state ≡ state number 0
        → draws.new.state ≡ state number 3 }
    ensures legal { broken_law result ≡ None }
{
    let mode = drawn_mode(draws);
    let lanes = 1 + draws.draw(8);
    let multiblocks = 1 + draws.draw(4);
    params_with(mode, lanes, multiblocks)
}

/// The shape that the first three draws give.
pub fn drawn_shape(draws: &mut Draws) -> Shape
    ensures answer { (number : ℕ) → draws.old.state ≡ state number 0
        → result ≡ drawn_params number }
    ensures state { (number : ℕ) → draws.old.state ≡ state number 0
        → draws.new.state ≡ state number 3 }
{
    match drawn_params(draws).check() {
        Ok(shape) => shape,
        Err(_) => unreachable!(),
    }
}

fn drawn_timing(shape: &Shape, draws: &mut Draws) -> Timing
    ensures answer { (number : ℕ) → draws.old.state ≡ state number 3
        → result ≡ drawn_timing number shape.now }
    ensures state { (number : ℕ) → draws.old.state ≡ state number 3
        → draws.new.state ≡ state number 6 }
    ensures legal { broken_timing shape.now result ≡ None }
    ensures some { 1 ≤ result.w_hi }
    ensures few { result.w_hi ≤ 512 }
{
    let period = shape.period();
    let late = draws.draw(period);
    let sync_delay = draws.draw(period);
    let w_hi = 1 + draws.draw(period / 2);
    Timing {
        sysref_period: 2 * period,
        sysref_start: 2,
        tx_skew: 8,
        rx_skew: 8 + 16 * late,
        tolerance: 7,
        rbd: (w_hi + shape.wait() + period - late) % period,
        sync_delay,
        w_lo: 1,
        w_hi,
    }
}

/// The link of this shape with the timing that the next three draws give.
pub fn drawn_link(shape: &Shape, draws: &mut Draws) -> Link
    ensures shape { result.params ≡ shape.now }
    ensures answer { (number : ℕ) → draws.old.state ≡ state number 3
        → result.timing ≡ drawn_timing number shape.now }
    ensures state { (number : ℕ) → draws.old.state ≡ state number 3
        → draws.new.state ≡ state number 6 }
    ensures some { 1 ≤ result.timing.w_hi }
    ensures few { result.timing.w_hi ≤ 512 }
{
    let timing = drawn_timing(shape, draws);
    match shape.with(&timing) {
        Ok(link) => link,
        Err(_) => unreachable!(),
    }
}
