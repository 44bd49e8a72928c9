//! The bench program: `jesd_bench JOB [--workers N] [--number N]`, with its input on standard input
//! and its lines on standard output. Its exit code is the status of its job.
#![tactic(auto)]

use jesd_base::{Sink, Source, Status, StdSink, StdSource};
use lane_threads::NoGate;
use link_bench::bench;
use std::alloc::Global;
use std::process::ExitCode;
use std::thread::Threads;
use std::{env, io};

/// The words after the program's name.
fn gather(rt: &HostRuntime) -> io::Result<Vec<String>> {
    let mut words = Vec::new(rt.alloc());
    for word in env::args(rt)?.skip(1) {
        words.push(word)?;
    }
    Ok(words)
}

/// Runs the job of the words.
fn run<R: Threads + Sync, S: Source, K: Sink>(
    rt: &R,
    alloc: Global,
    words: &[String],
    input: &mut S,
    out: &mut K,
) -> Status {
    let Ok(words) = words
        .iter()
        .map(|word| word.as_str())
        .collect::<Vec<&str>>(alloc)
    else {
        return Status::NoMemory;
    };
    let mut kept = None;
    bench(rt, alloc, &words, input, out, &NoGate, &mut kept)
}

fn main(rt: HostRuntime) -> ExitCode {
    let mut input = StdSource::new(rt.stdin());
    let mut out = StdSink::new(rt.stdout());
    let status = match gather(&rt) {
        Ok(words) => run(&rt, rt.alloc(), &words, &mut input, &mut out),
        Err(error) => match error.kind() {
            io::ErrorKind::OutOfMemory => Status::NoMemory,
            _ => Status::BadWords,
        },
    };
    ExitCode::from(status as u8)
}
