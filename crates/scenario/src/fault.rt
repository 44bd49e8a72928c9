//! What is wrong with a scenario.
use crate::cause::Cause;

/// What is wrong with a record: the cause, and the field, the number of fields or the law.
#[derive(Clone, Copy, Debug, PartialEq, Eq)]
pub struct Fault {
    pub cause: Cause,
    pub at: u32,
}

/// Why a record is not read.
#[derive(Clone, Copy, Debug)]
pub enum RecordFault {
    Bad(Fault),
    NoMemory,
}

/// Why a scenario is not read.
#[derive(Clone, Copy, Debug, PartialEq, Eq)]
pub enum ScenarioFault {
    /// A record is wrong. Records are counted from 1, and blank lines are none.
    ///
    /// | `cause` | what is wrong | `at` |
    /// |---|---|---|
    /// | 1 | there is no record; `row` is 0 | 0 |
    /// | 2 | the first record names neither version 1 nor version 2 | the field: 0 or 1 |
    /// | 3 | a record of this kind may not stand here | 0 |
    /// | 4 | the version has no such kind | 0 |
    /// | 5 | the number of fields | that number, the kind included |
    /// | 6 | a field is not written as its column asks | the field, the kind being 0 |
    /// | 7 | a number is out of its range | the field |
    /// | 8 | the parameters or the timing of the link break a law | the law, 1 to 17 |
    /// | 9 | the run is too large | the field: 1 |
    /// | 10 | events and jitters, or the counts of flips, are too many | 0 |
    /// | 11 | required records are missing; `row` is one more than the records | 0 |
    /// | 12 | a kind of version 2, none of which is built | 0 |
    Bad { row: u32, cause: u8, at: u32 },
    /// Memory ran out.
    NoMemory,
}
