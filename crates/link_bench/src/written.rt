//! Writing what is due, and the answer to it.
ghost use Rattle.std.specs.Prelude.{◌≡◌, if◌then◌else◌, None, Some};
ghost use Rattle.link_run.specs.Rows.{is_done};
ghost use Rattle.link_bench.specs.kept.Written.{IsWritten};

use jesd_base::{Sink, Status, WriteFault, write_all};
use link_run::Bench;

/// Writes a text: this status where all of it was written, `WriteFault` where the sink failed.
pub(crate) fn write_text<K: Sink>(out: &mut K, text: &[u8], status: Status) -> Status
    ensures { IsWritten status result text.now
        (K.written out.old) (K.written out.new) (K.faults out.old) (K.faults out.new) }
{
    match write_all(out, text) {
        Ok(()) => status,
        Err(WriteFault) => Status::WriteFault,
    }
}

/// The bench that is kept: the one that ran, where its job is done.
pub(crate) fn keep(status: Status, bench: Bench) -> Option<Bench>
    ensures { result ≡ (if is_done status then Some bench else None) }
{
    if is_done(status) { Some(bench) } else { None }
}

// Whether the job is done, with or without alarms.
fn is_done(status: Status) -> bool
    ensures { result ≡ is_done status }
{
    match status {
        Status::Done | Status::Alarmed => true,
        Status::BadWords
        | Status::BadScenario
        | Status::ReadFault
        | Status::WriteFault
        | Status::NoMemory
        | Status::TooLong => false,
    }
}
