//! The numbers of a row have 32 bits, so its line is short. Nothing is computed here.
ghost use Rattle.std.specs.Prelude.{◌<◌, ◌^◌};
ghost use Rattle.link_run.specs.kept.Lines.{AlarmFits, RowFits, TotalsFit};

use link_params::Alarm;
use scenario::{Row, Totals};

// Two numbers have 32 bits.
fn fit(a: u32, b: u32)
    ensures { (a < 2 ^ 32) × (b < 2 ^ 32) }
{}

fn alarm_fits(alarm: &Alarm)
    ensures { AlarmFits alarm.now }
{
    match alarm {
        Alarm::LaneWindow { lane, offset } => fit(*lane, *offset),
        Alarm::LaneMissing { lane } => fit(*lane, 0),
        Alarm::LaneLost { lane } => fit(*lane, 0),
        Alarm::NoLock { lane } => fit(*lane, 0),
        Alarm::IlasFault { lane, place } => fit(*lane, *place),
        Alarm::ConfigMismatch { lane, octet } => fit(*lane, *octet),
        Alarm::LaneId { lane, lid } => fit(*lane, *lid),
        Alarm::SysrefPhase { device: _, off } => fit(*off, 0),
        Alarm::StartTimeout => {}
    }
}

fn totals_fit(totals: &Totals)
    ensures { TotalsFit totals.now }
{
    fit(totals.ticks, totals.entered);
    fit(totals.delivered, totals.ok);
    fit(totals.fixed, totals.bad);
    fit(totals.alarms, totals.fullest);
}

/// The numbers of a row are below 2^32.
pub fn row_fits(row: &Row)
    ensures { RowFits row.now }
{
    match row {
        Row::Link => {}
        Row::Hunt(tick) => fit(*tick, 0),
        Row::Arm(tick) => fit(*tick, 0),
        Row::Release(tick) => fit(*tick, 0),
        Row::Alarm(tick, alarm) => {
            fit(*tick, 0);
            alarm_fits(alarm);
        }
        Row::Enter(time) => fit(*time, 0),
        Row::Frame(time, _) => fit(*time, 0),
        Row::End(totals) => totals_fit(totals),
    }
}
