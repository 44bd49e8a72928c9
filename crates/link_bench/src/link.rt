//! The run of a scenario's link.
ghost use Rattle.std.specs.Prelude.{◌≡◌, ◌<◌, ◌≤◌, true, false, None, IsTrue, is_some, Some};
ghost use Rattle.scenario.specs.Plans.{Plan, plan_of};
ghost use Rattle.link_laws_c.specs.RunLaws.{RunLaws};
ghost use Rattle.link_run.specs.Rows.{is_done};
ghost use Rattle.link_bench.specs.KeptBench.{KeepsPlan};
ghost use Rattle.link_bench.specs.kept.Written.{IsRunWritten};

use crate::written::keep;
use jesd_base::{Sink, Status};
use lane_threads::Gate;
use link_run::Bench;
use scenario::Scenario;
use std::alloc::Global;
use std::thread::Threads;

/// Runs the link of a scenario, in any mode, from its first tick to its last one, its lanes on at
/// most so many workers, and writes the lines of its report, or the first and the last one where
/// `short` is true (JESD204B.01 clauses 5.3.3 link operation and 6 deterministic latency;
/// JESD204C.1, 64b/66b link layer).
///
/// The lines are those of the run of the scenario's plan, the lanes of the bench made this run, and
/// the laws of a link hold of it: latency, bound, depth, lanes outside their windows, marks, and,
/// with 8b/10b lanes, that nothing sent imitates the lock. None of it depends on the number of
/// workers. `NoMemory` where the link gets too little memory; then nothing is written. The bench is
/// there after `Done` and `Alarmed`.
pub fn run_link<R: Threads + Sync, K: Sink, G: Gate>(
    rt: &R,
    alloc: Global,
    scenario: Scenario,
    workers: u32,
    out: &mut K,
    gate: &G,
    short: bool,
) -> (Status, Option<Bench>)
    requires link { IsTrue (is_some scenario.link) }
    requires workers { 0 < workers }
    ensures written { (plan : Plan) → plan_of scenario ≡ Some plan
        → IsRunWritten result.0 plan short (K.written out.old) (K.written out.new)
        (K.faults out.old) (K.faults out.new) }
    ensures count { K.faults out.old ≤ K.faults out.new }
    ensures kept { (plan : Plan) → plan_of scenario ≡ Some plan → is_done result.0 ≡ true
        → KeepsPlan result.1 plan workers }
    ensures dropped { is_done result.0 ≡ false → result.1 ≡ None }
    ensures laws { (plan : Plan) → plan_of scenario ≡ Some plan → RunLaws plan }
{
    let Some(link) = scenario.link else {
        unreachable!()
    };
    // what these two promise is that the link obeys its laws
    let (_shape, _timing) = (link.shape(), link.timing());
    let Ok(mut bench) = Bench::open(alloc, scenario, workers) else {
        return (Status::NoMemory, None);
    };
    let status = bench.run(rt, out, gate, short);
    (status, keep(status, bench))
}
