//! A run, segment by segment.
ghost use Rattle.std.specs.Prelude.{◌≡◌, ◌≤◌, ◌<◌, ◌+◌, ℕ, suc, length, true, IfOk, OnOk, Some, [], is_ok};
ghost use Rattle.link_params.specs.declared.fields.Params.{Params};
ghost use Rattle.scenario.specs.Plans.{Plan, plan_of};
ghost use Rattle.link_run.specs.kept.LinkStates.{HasAllTaken, HasDue, HasRun, HasRunWhole};
ghost use Rattle.link_model.specs.Kinds.{run_of};
ghost use Rattle.link_model.specs.Report.{totals};
ghost use Rattle.link_run.specs.Rows.{WasHanded, rows_handed};
ghost use Rattle.link_run.specs.kept.Printing.{no_totals};
ghost use Rattle.link_run.specs.kept.Reported.{AreFew, HasReported, handed_so_far};

use crate::link_state::LinkState;
use crate::report::Report;
use crate::reporting::report_tick;
use crate::rows::Rows;
use jesd_base::Failed;
use lane_threads::Gate;
use scenario::{Row, Scenario, Totals};
use std::thread::Threads;

/// Runs the link of a scenario from its first tick to its last one, its lanes on at most so many
/// workers, and hands on its rows. What its last row counts; `Failed` where the rows failed.
pub fn run<R: Threads + Sync, W: Rows, G: Gate>(
    rt: &R,
    s: &Scenario,
    state: &mut LinkState,
    report: &mut Report,
    workers: u32,
    rows: &mut W,
    gate: &G,
) -> Result<Totals, Failed>
    requires link { s.now.link ≡ Some state.old.link }
    requires workers { 0 < workers }
    requires stands { (plan : Plan) → plan_of s.now ≡ Some plan → HasRun state.old plan 0 0 }
    requires same { report.old.params ≡ s.now.shape }
    requires nothing { report.old.totals ≡ no_totals }
    requires shape { (p : Params) → W.shape rows.old ≡ Some p → p ≡ report.old.params }
    ensures handed { (plan : Plan) → plan_of s.now ≡ Some plan
        → WasHanded W W.Took W.shape W.faults rows.old rows.new (is_ok result)
        (rows_handed plan report.old.short) }
    ensures totals { (plan : Plan) → plan_of s.now ≡ Some plan
        → IfOk result (λ x. x ≡ totals plan (run_of plan plan.ticks)) }
    ensures ran { (plan : Plan) → plan_of s.now ≡ Some plan
        → OnOk result (HasRunWhole state.new plan) }
    ensures same { state.new.link ≡ state.old.link }
{
    rows.row(&Row::Link, &[])?;
    report.row(rows, &Row::Hunt(0))?;
    let (mut from, mut t) = (0, 0);
    while t < s.ticks {
        let count = state.run(rt, s, t, workers, gate);
        report_segment(state, report, rows, s, from)?;
        state.turn();
        from = t;
        t += count;
    }
    state.finish();
    report_segment(state, report, rows, s, from)?;
    let totals = report.totals(state.fullest());
    rows.row(&Row::End(totals), &[])?;
    Ok(totals)
}

// The rows of the segment before the one that ran last; it began with tick `from`.
fn report_segment<W: Rows>(
    state: &mut LinkState,
    report: &mut Report,
    rows: &mut W,
    s: &Scenario,
    from: u32,
) -> Result<(), Failed>
    requires ticks { from + length state.old.last.segment.steps ≤ s.now.ticks }
    requires link { s.now.link ≡ Some state.old.link }
    requires due { (plan : Plan) → plan_of s.now ≡ Some plan
        → HasDue state.old plan from (from + length state.old.last.segment.steps) }
    requires reported { (plan : Plan) → plan_of s.now ≡ Some plan
        → HasReported report.old plan (run_of plan from) }
    requires few { AreFew report.old.totals from }
    requires same { report.old.params ≡ s.now.shape }
    requires shape { (p : Params) → W.shape rows.old ≡ Some p → p ≡ report.old.params }
    ensures collected { (plan : Plan) → plan_of s.now ≡ Some plan
        → OnOk result (HasAllTaken state.new plan (from + length state.old.last.segment.steps)) }
    ensures handed { (plan : Plan) (start : W) → plan_of s.now ≡ Some plan
        → WasHanded W W.Took W.shape W.faults start rows.old true
        (handed_so_far report.old.short plan (run_of plan from))
        → WasHanded W W.Took W.shape W.faults start rows.new (is_ok result)
        (handed_so_far report.old.short plan (run_of plan (from + length state.old.last.segment.steps))) }
    ensures reported { (plan : Plan) → plan_of s.now ≡ Some plan
        → OnOk result (HasReported report.new plan (run_of plan (from + length state.old.last.segment.steps))) }
    ensures few { OnOk result (AreFew report.new.totals (from + length state.old.last.segment.steps)) }
    ensures params { (report.new.params ≡ report.old.params) × (report.new.short ≡ report.old.short) }
    ensures same { state.new ≡ record state.old { collecting = state.new.collecting } }
    ensures ends { state.new.collecting.ends ≡ state.old.collecting.ends }
{
    for i in 0..state.due() {
        let seen = state.collect(i as usize);
        let (alarms, frames) = (state.alarms(i as usize), state.delivered());
        report_tick(report, rows, s, from + i, &seen, alarms, frames)?;
    }
    Ok(())
}
