//! The laws of a link's timing, in order, and the latency.
ghost use Rattle.std.specs.Prelude.{◌≡◌, ◌≤◌, ◌<◌, ◌+◌, ◌*◌, ◌%◌, ◌^◌};
ghost use Rattle.link_params.specs.Laws.{ceil};
ghost use Rattle.link_params.specs.Numbers.{period, wait, lat_ticks};
ghost use Rattle.link_params.specs.TimingLaws.{broken_timing, is_steady, is_sysref, are_steady};

use crate::fields::Timing;
use crate::shape::Shape;

/// The least number of ticks that is not below so many sixteenths.
pub(crate) fn ticks_of(sixteenths: u32) -> u32
    ensures value { result ≡ ceil sixteenths 16 }
    ensures bound { result ≤ sixteenths }
{
    sixteenths.div_ceil(16)
}

fn long_ticks_of(sixteenths: u64) -> u64
    ensures { result ≡ ceil sixteenths 16 }
{
    sixteenths.div_ceil(16)
}

fn is_steady_skew(tolerance: u32, skew: u32) -> bool
    ensures { result ≡ is_steady tolerance skew }
{
    let (skew, tolerance) = (u64::from(skew), u64::from(tolerance));
    long_ticks_of(skew + 15 * tolerance) == long_ticks_of(skew + 17 * tolerance)
}

fn is_sysref_timing(shape: &Shape, timing: &Timing) -> bool
    ensures { result ≡ is_sysref shape.now timing.now }
{
    let period = shape.period();
    timing.sysref_period % period == 0
        && period <= timing.sysref_period
        && timing.sysref_period <= 1_048_576
        && 2 <= timing.sysref_start
        && timing.sysref_start < timing.sysref_period
}

fn are_steady_skews(shape: &Shape, timing: &Timing) -> bool
    ensures { result ≡ are_steady shape.now timing.now }
{
    let most = 16 * shape.period();
    timing.tx_skew <= most
        && timing.rx_skew <= most
        && is_steady_skew(timing.tolerance, timing.tx_skew)
        && is_steady_skew(timing.tolerance, timing.rx_skew)
}

/// The least number from `least` on that goes with `ahead` after `behind` more, modulo the period.
fn least_in_step(period: u32, least: u32, behind: u32, ahead: u32) -> u32
    requires some { 1 ≤ period }
    requires small { period ≤ 1024 }
    requires least { least < 2 ^ 20 }
    requires behind { behind < 2 ^ 28 }
    requires ahead { ahead < 2 ^ 28 }
    ensures from { least ≤ result }
    ensures below { result < least + period }
    ensures in_step { (result + behind) % period ≡ ahead % period }
{
    let due = ahead % period;
    let there = (least + behind) % period;
    least + (due + period - there) % period
}

/// The latency in ticks, for a timing that obeys laws 13 to 16 and has its window below the period.
pub(crate) fn latency_of(shape: &Shape, timing: &Timing) -> u32
    requires start { timing.now.sysref_start < 2 ^ 20 }
    requires tx { timing.now.tx_skew ≤ 16 * period shape.now }
    requires rx { timing.now.rx_skew ≤ 16 * period shape.now }
    requires rbd { timing.now.rbd < period shape.now }
    requires window { timing.now.w_hi < period shape.now }
    ensures value { result ≡ lat_ticks shape.now timing.now }
    ensures from { timing.now.w_hi + wait shape.now ≤ result }
    ensures small { result < 2112 }
{
    let tx_edge = timing.sysref_start + ticks_of(timing.tx_skew);
    let rx_edge = timing.sysref_start + ticks_of(timing.rx_skew);
    least_in_step(
        shape.period(),
        timing.w_hi + shape.wait(),
        tx_edge,
        rx_edge + timing.rbd,
    )
}

/// The number of the first of laws 13 to 17 that does not hold.
pub(crate) fn first_broken_timing(shape: &Shape, timing: &Timing) -> Option<u8>
    ensures { result ≡ broken_timing shape.now timing.now }
{
    let period = shape.period();
    if !is_sysref_timing(shape, timing) {
        return Some(13);
    }
    if !are_steady_skews(shape, timing) {
        return Some(14);
    }
    if timing.rbd >= period {
        return Some(15);
    }
    if timing.sync_delay >= period {
        return Some(16);
    }
    if timing.w_lo > timing.w_hi || timing.w_hi >= period {
        return Some(17);
    }
    if latency_of(shape, timing) >= timing.w_lo + shape.wait() + period {
        return Some(17);
    }
    None
}
