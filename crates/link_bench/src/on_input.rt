//! The jobs on an input: `map`, `unmap` and `run`.
ghost use Rattle.std.specs.Prelude.{◌≡◌, ◌<◌, IfOk, Some, string_bytes};
ghost use Rattle.scenario.specs.Reads.{bad_at};
ghost use Rattle.link_bench.specs.Jobs.{bad_line};
ghost use Rattle.link_bench.specs.kept.Scenarios.{DoesScenario, IsKeptOf, IsReady};
ghost use Rattle.link_bench.specs.declared.asked.Asked.TheVariants as asked;
ghost use Rattle.link_bench.specs.KeptBench.{IsKept};
ghost use Rattle.link_bench.specs.Causes.{OnInput, ends};

use crate::lines::{mapped, unmapped};
use crate::link::run_link;
use crate::written::write_text;
use jesd_base::{ReadAll, Sink, Source, Status, read_all};
use lane_threads::Gate;
use link_run::Bench;
use scenario::{Input, Job, Scenario, ScenarioFault, read_scenario};
use std::alloc::{AllocError, Global};
use std::thread::Threads;

const LIMIT: usize = 4_194_304;

/// Reads the input to its end, does the job, and writes its lines.
pub(crate) fn do_job<R: Threads + Sync, S: Source, K: Sink, G: Gate>(
    rt: &R,
    alloc: Global,
    job: Job,
    workers: u32,
    input: &mut S,
    out: &mut K,
    gate: &G,
) -> (Status, Option<Bench>)
    requires workers { 0 < workers }
    ensures keeps { IsKept result.0 (Some (asked.Input job)) workers
        (ends (S.left input.old) (K.written out.old) (S.faults input.old) (K.faults out.old))
        (ends (S.left input.new) (K.written out.new) (S.faults input.new) (K.faults out.new))
        result.1 }
    ensures cause { OnInput job result.0
        (ends (S.left input.old) (K.written out.old) (S.faults input.old) (K.faults out.old))
        (ends (S.left input.new) (K.written out.new) (S.faults input.new) (K.faults out.new)) }
{
    let bytes = match read_all(alloc, input, LIMIT) {
        Ok(bytes) => bytes,
        Err(ReadAll::TooLong) => return (Status::TooLong, None),
        Err(ReadAll::ReadFault) => return (Status::ReadFault, None),
        Err(ReadAll::NoMemory) => return (Status::NoMemory, None),
    };
    match read_scenario(alloc, job, &bytes) {
        Ok(scenario) => do_scenario(rt, alloc, job, scenario, workers, out, gate),
        Err(ScenarioFault::Bad { row, cause, at }) => {
            let Ok(line) = refusal_line(alloc, row, cause, at) else {
                return (Status::NoMemory, None);
            };
            let status = write_text(out, line.as_bytes(), Status::BadScenario);
            (status, None)
        }
        Err(ScenarioFault::NoMemory) => (Status::NoMemory, None),
    }
}

/// The line of a refused input.
fn refusal_line(alloc: Global, row: u32, cause: u8, at: u32) -> Result<String, AllocError>
    ensures { IfOk result (λ line. string_bytes line ≡ bad_line (bad_at row cause at)) }
{
    format!(in alloc; "bad,{row},{cause},{at}\n")
}

/// Does the job on a scenario, and writes its lines. The bench that ran is there where the job is a
/// run and is done.
fn do_scenario<R: Threads + Sync, K: Sink, G: Gate>(
    rt: &R,
    alloc: Global,
    job: Job,
    scenario: Scenario,
    workers: u32,
    out: &mut K,
    gate: &G,
) -> (Status, Option<Bench>)
    requires ready { IsReady job scenario }
    requires workers { 0 < workers }
    ensures cause { DoesScenario job scenario result.0 (K.written out.old) (K.written out.new)
        (K.faults out.old) (K.faults out.new) }
    ensures kept { IsKeptOf job scenario workers result.0 result.1 }
{
    let text = match job {
        Job::Map => match &scenario.input {
            Input::Frames(words) => mapped(alloc, &scenario.shape, words),
            Input::Ramp { .. } => mapped(alloc, &scenario.shape, &[]),
        },
        Job::Unmap => unmapped(alloc, &scenario.shape, &scenario.octets),
        Job::Run => return run_link(rt, alloc, scenario, workers, out, gate, false),
    };
    match text {
        Ok(text) => (write_text(out, &text, Status::Done), None),
        Err(_) => (Status::NoMemory, None),
    }
}
