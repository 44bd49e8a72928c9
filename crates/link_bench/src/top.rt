//! The top call.
ghost use Rattle.std.specs.Prelude.{map};
ghost use Rattle.link_bench.specs.Jobs.{asked};
ghost use Rattle.link_bench.specs.Causes.{Causes, IsComplete, ends};
ghost use Rattle.link_bench.specs.KeptBench.{IsKept, workers_asked};
ghost use Rattle.link_bench.specs.Lawful.{RunsAreLawful};

use crate::asked::{Asked, read_asked};
use crate::generated::do_generated;
use crate::on_input::do_job;
use crate::written::write_text;
use jesd_base::{NoMemory, Sink, Source, Status};
use lane_threads::Gate;
use link_run::Bench;
use std::alloc::Global;
use std::thread::Threads;

const USAGE: &[u8] = b"usage: jesd_bench JOB [--workers N] [--number N]\n";

/// Does what the words ask for: reads the input to its end, does the job, and writes its lines. The
/// job `gen` reads nothing: it runs the scenario of the number that the words name, 1 where they
/// name none, and writes the first and the last line of its report.
///
/// `words` are those after the program's name. The answer says what came of it: `Done` where the
/// job raised no alarm, `Alarmed` where it is done and its run raised alarms; `BadWords` with the
/// usage line written and nothing read; `BadScenario` with the line `bad,ROW,CAUSE,AT` written;
/// `TooLong` for more than 4,194,304 bytes; `ReadFault` and `WriteFault` only where the source or
/// the sink failed; `NoMemory`. Nothing else is written in these cases, and after `WriteFault` a
/// prefix of what was due.
///
/// The laws of a link hold of each run: of the plan that the records of an accepted input spell,
/// whose report is what `run` writes, and of the plan of each number (JESD204B.01 clause 6,
/// deterministic latency).
///
/// `gate` is passed by each worker before the ticks of a lane in a segment. What `kept` held is
/// dropped; after `Done` and `Alarmed` of `run` and `gen` it holds the bench that ran, and
/// otherwise nothing.
pub fn bench<R: Threads + Sync, S: Source, K: Sink, G: Gate>(
    rt: &R,
    alloc: Global,
    words: &[&str],
    input: &mut S,
    out: &mut K,
    gate: &G,
    kept: &mut Option<Bench>,
) -> Status
    ensures causes { Causes result (asked (map (λ w. w.now) words.now))
        (ends (S.left input.old) (K.written out.old) (S.faults input.old) (K.faults out.old))
        (ends (S.left input.new) (K.written out.new) (S.faults input.new) (K.faults out.new)) }
    ensures complete { IsComplete result (asked (map (λ w. w.now) words.now))
        (ends (S.left input.old) (K.written out.old) (S.faults input.old) (K.faults out.old))
        (ends (S.left input.new) (K.written out.new) (S.faults input.new) (K.faults out.new)) }
    ensures keeps { IsKept result (asked (map (λ w. w.now) words.now))
        (workers_asked (map (λ w. w.now) words.now))
        (ends (S.left input.old) (K.written out.old) (S.faults input.old) (K.faults out.old))
        (ends (S.left input.new) (K.written out.new) (S.faults input.new) (K.faults out.new))
        kept.new }
    ensures laws { RunsAreLawful }
{
    let (status, bench) = answer(rt, alloc, words, input, out, gate);
    *kept = bench;
    status
}

/// The status of the job of the words, and the bench that is kept.
fn answer<R: Threads + Sync, S: Source, K: Sink, G: Gate>(
    rt: &R,
    alloc: Global,
    words: &[&str],
    input: &mut S,
    out: &mut K,
    gate: &G,
) -> (Status, Option<Bench>)
    ensures causes { Causes result.0 (asked (map (λ w. w.now) words.now))
        (ends (S.left input.old) (K.written out.old) (S.faults input.old) (K.faults out.old))
        (ends (S.left input.new) (K.written out.new) (S.faults input.new) (K.faults out.new)) }
    ensures keeps { IsKept result.0 (asked (map (λ w. w.now) words.now))
        (workers_asked (map (λ w. w.now) words.now))
        (ends (S.left input.old) (K.written out.old) (S.faults input.old) (K.faults out.old))
        (ends (S.left input.new) (K.written out.new) (S.faults input.new) (K.faults out.new))
        result.1 }
{
    match read_asked(alloc, words) {
        Ok(Some((Asked::Input(job), workers))) => {
            do_job(rt, alloc, job, workers, input, out, gate)
        }
        Ok(Some((Asked::Generated(number), workers))) => {
            do_generated(rt, alloc, number, workers, out, gate)
        }
        Ok(None) => (write_text(out, USAGE, Status::BadWords), None),
        Err(NoMemory) => (Status::NoMemory, None),
    }
}
