//! The rows of a tick.
ghost use Rattle.std.specs.Prelude.{◌≡◌, ◌≤◌, ◌<◌, ◌+◌, ◌*◌, ◌/◌, ◌%◌, ◌++◌, ◌∷◌, [], length, map, if◌then◌else◌, Some, IfSome, IsTrue, OnOk, is_ok, is_some};
ghost use Rattle.link_params.specs.declared.fields.Params.{Params};
ghost use Rattle.scenario.specs.Limits.{has_words};
ghost use Rattle.scenario.specs.declared.report_row.Row.TheVariants as row;
ghost use Rattle.scenario.specs.Plans.{Plan, plan_of};
ghost use Rattle.link_model.specs.Kinds.{moment_of};
ghost use Rattle.link_model.specs.Moments.{History};
ghost use Rattle.link_model.specs.Report.{bares, decision_rows, enter_rows, frame_row, off_alarm, prints_all, prints_frames, rows_of_tick};
ghost use Rattle.link_model.specs.Sends.{beginnings, frames_before};
ghost use Rattle.link_run.specs.Rows.{WasHanded};
ghost use Rattle.link_run.specs.kept.Gathered.{Whole, delivered_of};
ghost use Rattle.link_run.specs.kept.Reported.{AreFew, AreFewFrames, HasReported, IsSeen};
ghost use Rattle.link_run.specs.kept.TickCounts.{entered_at, with_alarms, with_marks};

use crate::deframer::Deframer;
use crate::report::Report;
use crate::rows::Rows;
use crate::ticked::Ticked;
use bring_up::{AlarmRow, Decision};
use jesd_base::Failed;
use link_params::{Alarm, Device, place_in_frame};
use scenario::{Row, Scenario};

// A hunt, where the receiver was reset.
fn add_reset<W: Rows>(report: &mut Report, rows: &mut W, t: u32, reset: bool) -> Result<(), Failed>
    requires shape { (p : Params) → W.shape rows.old ≡ Some p → p ≡ report.old.params }
    ensures handed { WasHanded W W.Took W.shape W.faults rows.old rows.new (is_ok result)
        (if report.old.short then [] else bares (if reset then row.Hunt t ∷ [] else [])) }
    ensures same { report.new ≡ report.old }
{
    if reset {
        report.row(rows, &Row::Hunt(t))
    } else {
        Ok(())
    }
}

// An edge off a boundary.
fn add_off<W: Rows>(
    report: &mut Report,
    rows: &mut W,
    t: u32,
    device: Device,
    off: Option<u32>,
) -> Result<(), Failed>
    requires count { report.old.totals.alarms < 4294967295 }
    requires shape { (p : Params) → W.shape rows.old ≡ Some p → p ≡ report.old.params }
    ensures handed { WasHanded W W.Took W.shape W.faults rows.old rows.new (is_ok result)
        (if report.old.short then [] else bares (map (row.Alarm t) (off_alarm device off))) }
    ensures counts { report.new ≡ record report.old {
      totals = with_alarms report.old.totals (length (off_alarm device off));
    } }
    ensures few { length (off_alarm device off) ≤ 1 }
{
    match off {
        Some(off) => report.alarm(rows, t, Alarm::SysrefPhase { device, off }),
        None => Ok(()),
    }
}

// The frames of which tick `t` has the first octet, where it carries data at this place.
fn add_entries<W: Rows>(
    report: &mut Report,
    rows: &mut W,
    s: &Scenario,
    t: u32,
    place: Option<u32>,
) -> Result<(), Failed>
    requires tick { t < 1048576 }
    requires place { IfSome place (λ x. x < 1024) }
    requires count { report.old.totals.entered + 8 ≤ 4294967295 }
    requires same { report.old.params ≡ s.now.shape }
    requires link { IsTrue (is_some s.now.link) }
    requires shape { (p : Params) → W.shape rows.old ≡ Some p → p ≡ report.old.params }
    requires some { IsTrue (has_words s.now.input) }
    ensures handed { (plan : Plan) → plan_of s.now ≡ Some plan
        → WasHanded W W.Took W.shape W.faults rows.old rows.new (is_ok result)
        (if report.old.short then [] else (if prints_all plan.print
        then enter_rows plan report.old.totals.entered (entered_at plan.link.params t place)
        else [])) }
    ensures counts { OnOk result (report.new ≡ record report.old {
      totals = record report.old.totals {
        entered = report.old.totals.entered + length (entered_at s.now.shape t place);
      };
    }) }
    ensures few { length (entered_at s.now.shape t place) ≤ 8 }
    ensures params { (report.new.params ≡ report.old.params)
        × (report.new.short ≡ report.old.short) }
{
    let Some(place) = place else { return Ok(()) };
    if report.prints_entries(s) {
        add_entry_rows(report, rows, s, t, place)
    } else {
        report.count_entries(entries_at(report, s, place));
        Ok(())
    }
}

// The same, a frame at a time, with their rows.
#[inline(never)]
fn add_entry_rows<W: Rows>(
    report: &mut Report,
    rows: &mut W,
    s: &Scenario,
    t: u32,
    place: u32,
) -> Result<(), Failed>
    requires tick { t < 1048576 }
    requires place { place < 1024 }
    requires count { report.old.totals.entered + 8 ≤ 4294967295 }
    requires same { report.old.params ≡ s.now.shape }
    requires link { IsTrue (is_some s.now.link) }
    requires shape { (p : Params) → W.shape rows.old ≡ Some p → p ≡ report.old.params }
    requires some { IsTrue (has_words s.now.input) }
    ensures handed { (plan : Plan) → plan_of s.now ≡ Some plan
        → WasHanded W W.Took W.shape W.faults rows.old rows.new (is_ok result)
        (if report.old.short then [] else (if prints_all plan.print
        then enter_rows plan report.old.totals.entered (entered_at plan.link.params t (Some place))
        else [])) }
    ensures counts { OnOk result (report.new ≡ record report.old {
      totals = record report.old.totals {
        entered = report.old.totals.entered + length (entered_at s.now.shape t (Some place));
      };
    }) }
    ensures params { (report.new.params ≡ report.old.params)
        × (report.new.short ≡ report.old.short) }
{
    let per_tick = s.shape.octets_per_tick();
    let size = s.shape.frame_octets();
    // The next octet of the tick that begins a frame.
    let mut next = octets_to_frame(per_tick * place, size);
    while next < per_tick {
        report.enter(rows, s, per_tick * t + next)?;
        next += size;
    }
    Ok(())
}

// How many frames begin in a tick that carries data at this place.
fn entries_at(report: &Report, s: &Scenario, place: u32) -> u32
    requires place { place < 1024 }
    requires same { report.now.params ≡ s.now.shape }
    ensures { result ≡ length (beginnings s.now.shape (Some place)) }
{
    let whole = report.whole_frames();
    if whole > 0 {
        return whole;
    }
    let per_tick = s.shape.octets_per_tick();
    let size = s.shape.frame_octets();
    let first = octets_to_frame(per_tick * place, size);
    if first < per_tick {
        1 + frames_in(per_tick - first - 1, size)
    } else {
        0
    }
}

// How many frames so many octets of a lane hold.
fn frames_in(octets: u32, size: u32) -> u32
    requires some { 1 ≤ size }
    ensures { result ≡ octets / size }
{
    match size {
        1 => octets,
        2 => octets / 2,
        4 => octets / 4,
        _ => octets / size,
    }
}

// How many octets of a lane come before the next frame, from this octet on.
fn octets_to_frame(octet: u32, size: u32) -> u32
    requires size { (1 ≤ size) × (size ≤ 256) }
    ensures begins { (octet + result) % size ≡ 0 }
    ensures below { result < size }
{
    let at = place_in_frame(octet, size);
    if at == 0 { 0 } else { size - at }
}

// The alarms of a decision, in their order.
fn add_alarms<W: Rows>(
    report: &mut Report,
    rows: &mut W,
    t: u32,
    alarms: &AlarmRow,
) -> Result<(), Failed>
    requires count { report.old.totals.alarms + length alarms.now < 4294967295 }
    requires shape { (p : Params) → W.shape rows.old ≡ Some p → p ≡ report.old.params }
    ensures handed { WasHanded W W.Took W.shape W.faults rows.old rows.new (is_ok result)
        (if report.old.short then [] else bares (map (row.Alarm t) alarms.now)) }
    ensures counts { OnOk result (report.new ≡ record report.old {
      totals = with_alarms report.old.totals (length alarms.now);
    }) }
    ensures params { (report.new.params ≡ report.old.params)
        × (report.new.short ≡ report.old.short) }
{
    for i in 0..alarms.len() {
        report.alarm(rows, t, alarms.get(i))?;
    }
    Ok(())
}

// The decision, where it is not to stay.
fn add_decision<W: Rows>(
    report: &mut Report,
    rows: &mut W,
    t: u32,
    decision: Decision,
) -> Result<(), Failed>
    requires shape { (p : Params) → W.shape rows.old ≡ Some p → p ≡ report.old.params }
    ensures handed { WasHanded W W.Took W.shape W.faults rows.old rows.new (is_ok result)
        (if report.old.short then [] else bares (decision_rows t decision)) }
    ensures same { report.new ≡ report.old }
{
    match decision {
        Decision::Stay => Ok(()),
        Decision::Arm => report.row(rows, &Row::Arm(t)),
        Decision::Release => report.row(rows, &Row::Release(t)),
        Decision::Hunt => report.row(rows, &Row::Hunt(t)),
    }
}

// The frames that left, in the counts.
fn count_frames(report: &mut Report, frames: &Deframer)
    requires counts { AreFewFrames report.old.totals (8 * 1048576) }
    ensures counts { report.new ≡ record report.old {
      totals = with_marks report.old.totals (map (λ (f : Whole). f.mark) frames.now.frames);
    } }
    ensures few { length frames.now.frames ≤ 8 }
{
    let whole = frames.whole();
    let (first, others) = frames.marks();
    if whole > 0 {
        report.count(first, 1);
        report.count(others, whole as u32 - 1);
    }
}

// The frames that left; `end`: the octet time after the tick.
fn add_frames<W: Rows>(
    report: &mut Report,
    rows: &mut W,
    s: &Scenario,
    end: u32,
    frames: &Deframer,
) -> Result<(), Failed>
    requires end { end ≤ 8388608 }
    requires counts { AreFewFrames report.old.totals (8 * 1048576) }
    requires same { report.old.params ≡ s.now.shape }
    requires frames { frames.now.params ≡ s.now.shape }
    requires shape { (p : Params) → W.shape rows.old ≡ Some p → p ≡ report.old.params }
    ensures handed { (plan : Plan) → plan_of s.now ≡ Some plan
        → WasHanded W W.Took W.shape W.faults rows.old rows.new (is_ok result)
        (if report.old.short then [] else (if prints_frames plan.print
        then map frame_row (delivered_of plan.link.params end frames.now.frames frames.now.at)
        else [])) }
    ensures counts { report.new ≡ record report.old {
      totals = with_marks report.old.totals (map (λ (f : Whole). f.mark) frames.now.frames);
    } }
    ensures few { length frames.now.frames ≤ 8 }
{
    count_frames(report, frames);
    if report.prints_frames(s) {
        add_frame_rows(report, rows, end, frames)
    } else {
        Ok(())
    }
}

// Their rows.
#[inline(never)]
fn add_frame_rows<W: Rows>(
    report: &mut Report,
    rows: &mut W,
    end: u32,
    frames: &Deframer,
) -> Result<(), Failed>
    requires end { end ≤ 8388608 }
    requires frames { frames.now.params ≡ report.old.params }
    requires shape { (p : Params) → W.shape rows.old ≡ Some p → p ≡ report.old.params }
    ensures handed { WasHanded W W.Took W.shape W.faults rows.old rows.new (is_ok result)
        (map frame_row (delivered_of report.old.params end frames.now.frames frames.now.at)) }
    ensures same { report.new ≡ report.old }
{
    let size = frames.size();
    let after = frames.begun() + frames.whole() as u32 * size;
    let mut next = end;
    for i in 0..frames.whole() {
        report.frame(rows, next.saturating_sub(after), frames, i)?;
        next += size;
    }
    Ok(())
}

/// Hands on the rows of tick `t`, in their order, and counts it: the hunt of a receiver's reset,
/// edges off a boundary, the frames that began, the alarms of the decision, the decision, and the
/// frames that left.
pub fn report_tick<W: Rows>(
    report: &mut Report,
    rows: &mut W,
    s: &Scenario,
    t: u32,
    seen: &Ticked,
    alarms: &AlarmRow,
    frames: &Deframer,
) -> Result<(), Failed>
    requires tick { t < 1048576 }
    requires few { AreFew report.old.totals t }
    requires alarms { length alarms.now ≤ 34 }
    requires place { IfSome seen.now.place (λ x. x < 1024) }
    requires same { report.old.params ≡ s.now.shape }
    requires frames { frames.now.params ≡ s.now.shape }
    requires link { IsTrue (is_some s.now.link) }
    requires shape { (p : Params) → W.shape rows.old ≡ Some p → p ≡ report.old.params }
    requires some { IsTrue (has_words s.now.input) }
    ensures handed { (plan : Plan) (h : History) → plan_of s.now ≡ Some plan
        → HasReported report.old plan h → t ≡ length h
        → IsSeen seen.now alarms.now frames.now.frames frames.now.at plan h
        → WasHanded W W.Took W.shape W.faults rows.old rows.new (is_ok result)
        (if report.old.short then []
        else rows_of_tick plan t (frames_before h) (moment_of plan h)) }
    ensures counts { (plan : Plan) (h : History) → plan_of s.now ≡ Some plan
        → HasReported report.old plan h → t ≡ length h
        → IsSeen seen.now alarms.now frames.now.frames frames.now.at plan h
        → OnOk result (HasReported report.new plan (h ++ moment_of plan h ∷ [])) }
    ensures few { OnOk result (AreFew report.new.totals (t + 1)) }
    ensures params { (report.new.params ≡ report.old.params)
        × (report.new.short ≡ report.old.short) }
{
    add_reset(report, rows, t, seen.rx_reset)?;
    add_off(report, rows, t, Device::Tx, seen.tx_off)?;
    add_off(report, rows, t, Device::Rx, seen.rx_off)?;
    add_entries(report, rows, s, t, seen.place)?;
    add_alarms(report, rows, t, alarms)?;
    add_decision(report, rows, t, seen.decision)?;
    let end = s.shape.octets_per_tick() * (t + 1);
    add_frames(report, rows, s, end, frames)?;
    report.tick();
    Ok(())
}
