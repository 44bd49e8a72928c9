//! A bench: a scenario with the lanes that run it.
ghost use Rattle.std.specs.Prelude.{◌≡◌, ◌<◌, ◌≤◌, true, false, is_ok, IfOk, IsTrue, is_some, OnOk, Some};
ghost use Rattle.link_params.specs.declared.fields.Params.{Params};
ghost use Rattle.scenario.specs.Plans.{Plan, plan_of};
ghost use Rattle.link_run.specs.Ran.{HaveRun};
ghost use Rattle.link_run.specs.Rows.{HasAlarms, HasWritten, WasHanded, alarms_in, is_done, is_whole, rows_handed};
ghost use Rattle.link_run.specs.kept.Lines.{status_of};

use crate::link_state::LinkState;
use crate::report::Report;
use crate::rows::Rows;
use crate::runs::run;
use crate::text_rows::{Lines, TextRows};
use jesd_base::{Failed, NoMemory, Sink, Status};
use lane_threads::{CellEnd, Gate, LanePair};
use scenario::{Scenario, Totals};
use std::alloc::Global;
use std::marker::Model;
use std::thread::Threads;

/// What came of a run whose rows are handed on.
#[derive(Clone, Copy, Debug, PartialEq, Eq)]
pub enum Played {
    /// All rows were taken, and the run has no alarm.
    Quiet,
    /// All rows were taken, and the run has an alarm.
    Alarmed,
    /// The rows failed; a prefix was taken.
    Stopped,
}

/// A scenario with a link, the lanes that run it, and on how many workers. Contracts see the
/// scenario, the workers, whether it has run, its lanes and the ends of their rings.
#[derive(Drop)]
pub struct Bench {
    scenario: Scenario,
    workers: u32,
    ran: bool,
    state: LinkState,
    report: Report,
    lines: Lines,
}

impl Model for Bench {
    ghost use Rattle.std.specs.Prelude.{◌≡◌, ◌<◌, ◌*◌, [], false, Some};
    ghost use Rattle.scenario.specs.Plans.{Plan, plan_of};
    ghost use Rattle.link_run.specs.Ran.{BenchView};
    ghost use Rattle.link_run.specs.kept.LinkStates.{HasRun};
    ghost use Rattle.link_run.specs.kept.Printing.{no_totals};

    ghost Value = { BenchView };

    ghost view = { λ b. record {
      scenario = b.scenario;
      workers = b.workers;
      ran = b.ran;
      lanes = b.state.lanes;
      ends = b.state.collecting.ends;
    } };

    ghost invariant = { λ b. (b.scenario.link ≡ Some b.state.link) × (0 < b.workers)
        × (b.ran ≡ false → (b.report.params ≡ b.scenario.shape) × (b.report.totals ≡ no_totals)
        × (b.lines.words ≡ b.scenario.shape.m * b.scenario.shape.s) × (b.lines.bytes ≡ [])
        × ((plan : Plan) → plan_of b.scenario ≡ Some plan → HasRun b.state plan 0 0)) };
}

impl Bench {
    /// A bench that has not run, with a new lane pair for each lane. All memory of its run is taken
    /// here; `NoMemory` where there is too little of it.
    pub fn open(alloc: Global, scenario: Scenario, workers: u32) -> Result<Bench, NoMemory>
        requires link { IsTrue (is_some scenario.link) }
        requires workers { 0 < workers }
        ensures same { IfOk result (λ b. (b.scenario ≡ scenario) × (b.workers ≡ workers) × (b.ran ≡ false)) }
        ensures new { (plan : Plan) → plan_of scenario ≡ Some plan
            → IfOk result (λ b. HaveRun b.lanes b.ends plan 0) }
    {
        let Some(link) = scenario.link else {
            unreachable!()
        };
        let state = LinkState::open(alloc, &scenario, &link)?;
        let report = Report::open(alloc, &scenario)?;
        let lines = Lines::open(alloc, &scenario)?;
        Ok(Bench {
            scenario,
            workers,
            ran: false,
            state,
            report,
            lines,
        })
    }

    /// The scenario.
    pub fn scenario(&self) -> &Scenario
        ensures { result.now ≡ self.now.scenario }
    {
        &self.scenario
    }

    /// On how many workers its lanes run at most.
    pub fn workers(&self) -> u32
        ensures { result ≡ self.now.workers }
    {
        self.workers
    }

    /// Whether it has run.
    pub fn ran(&self) -> bool
        ensures { result ≡ self.now.ran }
    {
        self.ran
    }

    /// Its lanes, in ascending order.
    pub fn lanes(&self) -> &[LanePair]
        ensures { result.now ≡ self.now.lanes }
    {
        self.state.lanes()
    }

    /// The end of each lane's ring, in ascending lanes.
    pub fn ends(&self) -> &[CellEnd]
        ensures { result.now ≡ self.now.ends }
    {
        self.state.ends()
    }

    /// Runs the link from its first tick to its last one, and hands its rows to `rows` segment by
    /// segment: all of them, or the first and the last one where `short` is true.
    pub fn play<R: Threads + Sync, W: Rows, G: Gate>(
        &mut self,
        rt: &R,
        rows: &mut W,
        gate: &G,
        short: bool,
    ) -> Played
        requires fresh { self.old.ran ≡ false }
        requires shape { (p : Params) → W.shape rows.old ≡ Some p → p ≡ self.old.scenario.shape }
        ensures handed { (plan : Plan) → plan_of self.old.scenario ≡ Some plan
            → WasHanded W W.Took W.shape W.faults rows.old rows.new (is_whole result)
            (rows_handed plan short) }
        ensures alarms { (plan : Plan) → plan_of self.old.scenario ≡ Some plan
            → HasAlarms result (alarms_in plan) }
        ensures lanes { (plan : Plan) → plan_of self.old.scenario ≡ Some plan
            → is_whole result ≡ true → HaveRun self.new.lanes self.new.ends plan plan.ticks }
        ensures ran { self.new.ran ≡ true }
        ensures same { (self.new.scenario ≡ self.old.scenario) × (self.new.workers ≡ self.old.workers) }
    {
        self.ran = true;
        self.report.set_short(short);
        outcome(run(
            rt,
            &self.scenario,
            &mut self.state,
            &mut self.report,
            self.workers,
            rows,
            gate,
        ))
    }

    /// Runs the link from its first tick to its last one, and writes the line of each of its rows to
    /// `out`: of all of them, or of the first and the last one where `short` is true. `Done` or
    /// `Alarmed`, or `WriteFault` where the sink failed.
    pub fn run<R: Threads + Sync, K: Sink, G: Gate>(
        &mut self,
        rt: &R,
        out: &mut K,
        gate: &G,
        short: bool,
    ) -> Status
        requires fresh { self.old.ran ≡ false }
        ensures written { (plan : Plan) → plan_of self.old.scenario ≡ Some plan
            → HasWritten result plan short (K.written out.old) (K.written out.new)
            (K.faults out.old) (K.faults out.new) }
        ensures count { K.faults out.old ≤ K.faults out.new }
        ensures lanes { (plan : Plan) → plan_of self.old.scenario ≡ Some plan
            → IsTrue (is_done result) → HaveRun self.new.lanes self.new.ends plan plan.ticks }
        ensures ran { self.new.ran ≡ true }
        ensures same { (self.new.scenario ≡ self.old.scenario) × (self.new.workers ≡ self.old.workers) }
    {
        self.ran = true;
        self.report.set_short(short);
        let mut rows = TextRows {
            s: &self.scenario,
            lines: &mut self.lines,
            out,
            failed: false,
        };
        let ran = run(
            rt,
            &self.scenario,
            &mut self.state,
            &mut self.report,
            self.workers,
            &mut rows,
            gate,
        );
        status(outcome(ran), rows.flush())
    }
}

// What came of a run.
fn outcome(ran: Result<Totals, Failed>) -> Played
    ensures whole { is_whole result ≡ is_ok ran }
    ensures alarms { IfOk ran (λ t. HasAlarms result t.alarms) }
{
    match ran {
        Ok(totals) if totals.alarms > 0 => Played::Alarmed,
        Ok(_) => Played::Quiet,
        Err(Failed) => Played::Stopped,
    }
}

// The status of a run whose lines were written.
fn status(played: Played, flushed: Result<(), Failed>) -> Status
    ensures { result ≡ status_of played (is_ok flushed) }
{
    match (played, flushed) {
        (Played::Quiet, Ok(())) => Status::Done,
        (Played::Alarmed, Ok(())) => Status::Alarmed,
        (Played::Stopped, _) | (_, Err(Failed)) => Status::WriteFault,
    }
}
