//! The job `gen`: the run of the scenario of a number.
ghost use Rattle.std.specs.Prelude.{◌≡◌, ◌<◌, ℕ, List, Option, Some};
ghost use Rattle.scenario.specs.Generated.{generated};
ghost use Rattle.link_bench.specs.Causes.{OnPlan, ends};
ghost use Rattle.link_bench.specs.declared.asked.Asked.TheVariants.{Generated};
ghost use Rattle.link_bench.specs.KeptBench.{IsKept};

use crate::link::run_link;
use jesd_base::{Sink, Status};
use lane_threads::Gate;
use link_run::Bench;
use scenario::gen_scenario;
use std::alloc::Global;
use std::thread::Threads;

/// Runs the scenario of a number, and writes the first and the last line of its report. The bench
/// that ran is there where the job is done.
pub(crate) fn do_generated<R: Threads + Sync, K: Sink, G: Gate>(
    rt: &R,
    alloc: Global,
    number: u32,
    workers: u32,
    out: &mut K,
    gate: &G,
) -> (Status, Option<Bench>)
    requires workers { 0 < workers }
    ensures cause { (left : Option (List ℕ)) (reads_failed : ℕ) → OnPlan (generated number) result.0
        (ends left (K.written out.old) reads_failed (K.faults out.old))
        (ends left (K.written out.new) reads_failed (K.faults out.new)) }
    ensures keeps { (left : Option (List ℕ)) (reads_failed : ℕ)
        → IsKept result.0 (Some (Generated number)) workers
        (ends left (K.written out.old) reads_failed (K.faults out.old))
        (ends left (K.written out.new) reads_failed (K.faults out.new)) result.1 }
{
    let Ok(scenario) = gen_scenario(alloc, number) else {
        return (Status::NoMemory, None);
    };
    run_link(rt, alloc, scenario, workers, out, gate, true)
}
