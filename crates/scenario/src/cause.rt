//! Why a scenario is refused.
ghost use Rattle.std.specs.Prelude.{◌≡◌};
ghost use Rattle.scenario.specs.Causes.{cause_number};
ghost use Rattle.scenario.specs.Check.{fault};

use crate::fault::Fault;

/// Why a scenario is refused.
#[derive(Clone, Copy, Debug, PartialEq, Eq)]
pub enum Cause {
    /// There is no record.
    NoRecord,
    /// The first record names neither version 1 nor version 2.
    Version,
    /// A record of this kind may not stand here.
    Misplaced,
    /// The version has no such kind.
    UnknownKind,
    /// The number of fields is not the one of the kind.
    FieldCount,
    /// A field is not written as its column asks.
    Form,
    /// A number is out of its range.
    Range,
    /// The parameters or the timing of the link break a law.
    Law,
    /// The run is too large.
    RunSize,
    /// Events and jitters, or the counts of flips, are too many.
    TooMany,
    /// Required records are missing.
    Missing,
}

impl Cause {
    /// The number of the cause in the line `bad`.
    pub fn number(self) -> u8
        ensures { result ≡ cause_number self }
    {
        match self {
            Cause::NoRecord => 1,
            Cause::Version => 2,
            Cause::Misplaced => 3,
            Cause::UnknownKind => 4,
            Cause::FieldCount => 5,
            Cause::Form => 6,
            Cause::Range => 7,
            Cause::Law => 8,
            Cause::RunSize => 9,
            Cause::TooMany => 10,
            Cause::Missing => 11,
        }
    }

    /// The fault of this cause at a field, a number of fields or a law.
    pub fn at(self, at: u32) -> Fault
        ensures { result ≡ fault self at }
    {
        Fault { cause: self, at }
    }
}
