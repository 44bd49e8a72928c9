//! The decision of each stage, by the count of the decisions since it began.
ghost use Rattle.std.specs.Prelude.{◌≡◌, ◌≤◌, ◌<◌, ◌+◌, [], length};
ghost use Rattle.std.specs.List.{All, list_all};
ghost use Rattle.bring_up.specs.declared.stage.Decision.TheVariants.{Stay};
ghost use Rattle.bring_up.specs.declared.stage.Stage.TheVariants.{Wait};
ghost use Rattle.bring_up.specs.kept.Controls.{NamesOctet, count_after, decided_by, limit};
ghost use Rattle.bring_up.specs.Decisions.{all_started, decided, hunt_on, in_hunt, lost_or_faulty, outside_or_missing, some_started};

use crate::alarm_row::AlarmRow;
use crate::class::Class;
use crate::stage::{Decision, Stage};
use link_params::{Alarm, LaneReport, Link};

// The decision of a stage; its alarms go into the row, which is empty.
pub(crate) fn judge(
    link: &Link,
    stage: Stage,
    count: u32,
    reports: &[LaneReport],
    alarms: &mut AlarmRow,
) -> Decision
    requires count { count < limit stage }
    requires reports { length reports.now ≡ link.now.params.l }
    requires octets { All (NamesOctet link.now.params) reports.now }
    requires empty { alarms.old ≡ [] }
    ensures decision { result ≡ (decided_by link.now.params link.now.timing stage count reports.now).decision }
    ensures alarms { alarms.new ≡ (decided_by link.now.params link.now.timing stage count reports.now).alarms }
    ensures stays { result ≡ Stay → count_after stage count < limit stage }
{
    let _lanes = link.shape().lanes();
    match stage {
        Stage::Hunt => in_hunt(link, count + 1, reports, alarms),
        Stage::Wait => in_wait(link, count, reports, alarms),
        Stage::Run => in_run(link, reports, alarms),
    }
}

// The decision of a hunt with this number, counted from 1.
fn in_hunt(link: &Link, number: u32, reports: &[LaneReport], alarms: &mut AlarmRow) -> Decision
    requires reports { length reports.now ≤ 32 }
    requires octets { All (NamesOctet link.now.params) reports.now }
    requires empty { alarms.old ≡ [] }
    ensures decision { result ≡ (in_hunt number reports.now).decision }
    ensures alarms { alarms.new ≡ (in_hunt number reports.now).alarms }
{
    if 4 <= number && all_locked(reports) {
        return Decision::Arm;
    }
    if number % 16 == 0 {
        Class::NotLocked.raise(link, reports, alarms);
    }
    Decision::Stay
}

// The decision of armed lanes; `count` decisions before it were idle.
fn in_wait(link: &Link, count: u32, reports: &[LaneReport], alarms: &mut AlarmRow) -> Decision
    requires count { count < 8 }
    requires reports { length reports.now ≤ 32 }
    requires octets { All (NamesOctet link.now.params) reports.now }
    requires empty { alarms.old ≡ [] }
    ensures decision { result ≡ (decided_by link.now.params link.now.timing Wait count reports.now).decision }
    ensures alarms { alarms.new ≡ (decided_by link.now.params link.now.timing Wait count reports.now).alarms }
    ensures stays { result ≡ Stay → count + 1 < 8 }
{
    raise_lost_or_faulty(link, reports, alarms);
    if alarms.len() == 0 {
        raise_outside_or_missing(link, reports, alarms);
    }
    if alarms.len() != 0 {
        return Decision::Hunt;
    }
    if all_started(reports) {
        return Decision::Release;
    }
    if count + 1 == 8 {
        alarms.push(Alarm::StartTimeout);
        return Decision::Hunt;
    }
    Decision::Stay
}

// The decision of a running link.
fn in_run(link: &Link, reports: &[LaneReport], alarms: &mut AlarmRow) -> Decision
    requires reports { length reports.now ≤ 32 }
    requires octets { All (NamesOctet link.now.params) reports.now }
    requires empty { alarms.old ≡ [] }
    ensures decision { result ≡ (hunt_on (lost_or_faulty link.now.params reports.now) (decided Stay [])).decision }
    ensures alarms { alarms.new ≡ (hunt_on (lost_or_faulty link.now.params reports.now) (decided Stay [])).alarms }
{
    raise_lost_or_faulty(link, reports, alarms);
    if alarms.len() == 0 {
        Decision::Stay
    } else {
        Decision::Hunt
    }
}

// Lost lanes, else faults of the alignment sequence.
fn raise_lost_or_faulty(link: &Link, reports: &[LaneReport], alarms: &mut AlarmRow)
    requires reports { length reports.now ≤ 32 }
    requires octets { All (NamesOctet link.now.params) reports.now }
    requires empty { alarms.old ≡ [] }
    ensures { alarms.new ≡ lost_or_faulty link.now.params reports.now }
{
    Class::Lost.raise(link, reports, alarms);
    if alarms.len() == 0 {
        Class::Faulty.raise(link, reports, alarms);
    }
}

// Lanes outside their windows, else missing ones.
fn raise_outside_or_missing(link: &Link, reports: &[LaneReport], alarms: &mut AlarmRow)
    requires reports { length reports.now ≤ 32 }
    requires octets { All (NamesOctet link.now.params) reports.now }
    requires empty { alarms.old ≡ [] }
    ensures { alarms.new ≡ outside_or_missing link.now.timing reports.now }
{
    Class::Outside.raise(link, reports, alarms);
    if alarms.len() == 0 && some_started(reports) {
        Class::Missing.raise(link, reports, alarms);
    }
}

fn all_locked(reports: &[LaneReport]) -> bool
    ensures { result ≡ list_all (λ r. r.locked) reports.now }
{
    reports.iter().all(|report| report.locked)
}

fn all_started(reports: &[LaneReport]) -> bool
    ensures { result ≡ all_started reports.now }
{
    reports.iter().all(|report| report.started.is_some())
}

fn some_started(reports: &[LaneReport]) -> bool
    ensures { result ≡ some_started reports.now }
{
    reports.iter().any(|report| report.started.is_some())
}
