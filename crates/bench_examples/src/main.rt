//! Runs the examples of the folder in which it is started, and compares what the bench writes for
//! `NAME.csv` with what `NAME.out` holds. It prints one line an example, in the order of their names.
#![tactic(auto)]

use jesd_base::{MemSink, MemSource, Status};
use lane_threads::NoGate;
use link_bench::bench;
use std::alloc::Global;
use std::thread::Threads;
use std::{fs, io};

/// Room for what the bench writes for an example.
const ROOM: usize = 1 << 20;

/// The names of the examples in the folder, without `.csv`, in ascending order.
fn example_names(rt: &HostRuntime) -> io::Result<Vec<String>> {
    let mut names = Vec::new(rt.alloc());
    for entry in fs::read_dir(rt, ".")? {
        let entry = entry?;
        if let Some(name) = entry.file_name().strip_suffix(".csv") {
            names.push(String::from_str(rt.alloc(), name)?)?;
        }
    }
    names.sort()?;
    Ok(names)
}

/// The job of an example: `map` or `unmap` where its name begins so, else `run`.
fn job_of(name: &str) -> &'static str {
    if name.starts_with("map") {
        "map"
    } else if name.starts_with("unmap") {
        "unmap"
    } else {
        "run"
    }
}

/// The files of an example: its input, and what is stored.
fn files_of(rt: &HostRuntime, name: &str) -> io::Result<(Vec<u8>, Vec<u8>)> {
    let alloc = rt.alloc();
    let input = fs::read(rt, format!(in alloc; "{name}.csv")?.as_str())?;
    let stored = fs::read(rt, format!(in alloc; "{name}.out")?.as_str())?;
    Ok((input, stored))
}

/// The status of an example's job, and whether what it writes is what is stored.
fn compare<R: Threads + Sync>(
    rt: &R,
    alloc: Global,
    name: &str,
    input: Vec<u8>,
    stored: &[u8],
) -> io::Result<(Status, bool)> {
    let Ok(mut sink) = MemSink::open(alloc, ROOM, ROOM, Vec::new(alloc)) else {
        return Err(io::Error::from(io::ErrorKind::OutOfMemory));
    };
    let mut source = MemSource::new(input, ROOM, Vec::new(alloc));
    let mut kept = None;
    let words = [job_of(name)];
    let status = bench(
        rt,
        alloc,
        &words,
        &mut source,
        &mut sink,
        &NoGate,
        &mut kept,
    );
    Ok((status, sink.bytes() == stored))
}

fn main(rt: HostRuntime) -> io::Result<()> {
    for name in example_names(&rt)? {
        let (input, stored) = files_of(&rt, &name)?;
        let (status, same) = compare(&rt, rt.alloc(), &name, input, &stored)?;
        let told = if same { "as stored" } else { "NOT AS STORED" };
        println!(rt; "{name}: {status:?}, {told}")?;
    }
    Ok(())
}
