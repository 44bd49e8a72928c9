//! What the words of the command line ask for.

/// What the program is to do.
#[derive(Clone, Copy, Debug, PartialEq, Eq)]
pub enum Task {
    /// Lay frames of words out on lanes.
    Map,
    /// Read the words of frames from the octets of lanes.
    Unmap,
    /// Run both ends of a link against each other.
    Run,
    /// Run a scenario that is made from a number.
    Gen,
}

/// What the words ask for.
#[derive(Clone, Copy, Debug, PartialEq, Eq)]
pub struct Words {
    /// The job.
    pub task: Task,
    /// The worker threads, 1 to 32; 1 where no option says it.
    pub workers: u32,
    /// The number of the scenario to make; 1 where no option says it.
    pub number: u32,
}

/// Why no `Words` came.
#[derive(Clone, Copy, Debug, PartialEq, Eq)]
pub enum WordsFault {
    /// The words are refused.
    Bad,
    /// Memory ran out.
    NoMemory,
}
