//! The classes of alarms of lanes, and what each raises.
ghost use Rattle.std.specs.Prelude.{◌≡◌, ◌≤◌, ◌+◌, ◌++◌, ℕ, length};
ghost use Rattle.std.specs.List.{All};
ghost use Rattle.link_params.specs.declared.ilas_state.IlasCause.TheVariants.{Config};
ghost use Rattle.link_params.specs.declared.ilas_state.IlasState.TheVariants.{Fault};
ghost use Rattle.bring_up.specs.kept.Classes.{class_alarm, listed};
ghost use Rattle.bring_up.specs.kept.Controls.{NamesOctet};
ghost use Rattle.bring_up.specs.Decisions.{alarms_from, if_so, state_alarm, window_alarm};

use crate::alarm_row::AlarmRow;
use link_params::{Alarm, IlasCause, IlasState, LaneReport, Link};

/// A class of alarms of lanes.
#[derive(Clone, Copy, Debug)]
pub(crate) enum Class {
    /// Lanes that are not locked.
    NotLocked,
    /// Lanes that are lost.
    Lost,
    /// Lanes whose alignment sequence breaks a rule.
    Faulty,
    /// Lanes that started outside their window.
    Outside,
    /// Lanes that did not start.
    Missing,
}

impl Class {
    // Raises this class for each lane that it fits, in ascending order.
    pub(crate) fn raise(self, link: &Link, reports: &[LaneReport], alarms: &mut AlarmRow)
        requires room { length alarms.old + length reports.now ≤ 34 }
        requires octets { All (NamesOctet link.now.params) reports.now }
        ensures { alarms.new ≡ alarms.old ++ alarms_from 0 (class_alarm link.now.params link.now.timing self) reports.now }
    {
        for (lane, report) in reports.iter().enumerate() {
            if let Some(alarm) = self.alarm(link, lane as u32, report) {
                alarms.push(alarm);
            }
        }
    }

    // The alarm that this class raises for a lane, if any.
    fn alarm(self, link: &Link, lane: u32, report: &LaneReport) -> Option<Alarm>
        requires { NamesOctet link.now.params report.now }
        ensures { listed result ≡ class_alarm link.now.params link.now.timing self lane report.now }
    {
        match self {
            Class::NotLocked => alarm_if(!report.locked, Alarm::NoLock { lane }),
            Class::Lost => alarm_if(report.lost, Alarm::LaneLost { lane }),
            Class::Faulty => fault_alarm(link.shape().period() + 2, lane, report.ilas),
            Class::Outside => window_alarm(link, lane, report.started),
            Class::Missing => alarm_if(report.started.is_none(), Alarm::LaneMissing { lane }),
        }
    }
}

fn alarm_if(test: bool, alarm: Alarm) -> Option<Alarm>
    ensures { listed result ≡ if_so test alarm }
{
    if test { Some(alarm) } else { None }
}

// The alarm of a fault of the alignment sequence; `first` is the place of configuration octet 0.
fn fault_alarm(first: u32, lane: u32, state: IlasState) -> Option<Alarm>
    requires { (x : ℕ) → state ≡ Fault x Config → first ≤ x }
    ensures { listed result ≡ state_alarm first lane state }
{
    match state {
        IlasState::Fault { place, cause } => Some(match cause {
            IlasCause::LaneId { lid } => Alarm::LaneId { lane, lid },
            IlasCause::Config => Alarm::ConfigMismatch {
                lane,
                octet: place - first,
            },
            IlasCause::Code | IlasCause::Wrong | IlasCause::Fchk => {
                Alarm::IlasFault { lane, place }
            }
        }),
        IlasState::Idle | IlasState::Going | IlasState::Done => None,
    }
}

// The alarm of a start outside the window.
fn window_alarm(link: &Link, lane: u32, started: Option<u32>) -> Option<Alarm>
    ensures { listed result ≡ window_alarm link.now.timing lane started }
{
    let offset = started?;
    let inside = link.is_inside(offset);
    alarm_if(!inside, Alarm::LaneWindow { lane, offset })
}
