//! How a program of the bench ends, and want of memory.

/// How a program ends. Its exit code is the place in this list, from 0.
#[derive(Clone, Copy, Debug, PartialEq, Eq)]
pub enum Status {
    /// The job was done, its input read to the end, and all was written.
    Done,
    /// As `Done`, and the run has raised at least one alarm.
    Alarmed,
    /// The command line is refused; the usage line was written.
    BadWords,
    /// The input is refused; the line `bad,ROW,CAUSE,AT` was written.
    BadScenario,
    /// The source failed.
    ReadFault,
    /// The sink failed.
    WriteFault,
    /// Memory ran out.
    NoMemory,
    /// The input is longer than the limit.
    TooLong,
}

/// Memory ran out.
#[derive(Clone, Copy, Debug, PartialEq, Eq)]
pub struct NoMemory;
