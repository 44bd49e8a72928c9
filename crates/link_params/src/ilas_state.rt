//! Where the check of a lane's alignment sequence stands.

/// Why a place of the sequence breaks a rule (JESD204B.01 clause 5.3.3.5).
#[derive(Clone, Copy, Debug, PartialEq, Eq)]
pub enum IlasCause {
    /// Ten bits that are no character at the present disparity.
    Code,
    /// A character that is not allowed at its place.
    Wrong,
    /// Configuration octet 2 names another lane: the five low bits that were read.
    LaneId { lid: u32 },
    /// Another configuration octet differs from the lane's in its compared bits.
    Config,
    /// Octet 13 is neither sum.
    Fchk,
}

/// The check of a lane's alignment sequence.
#[derive(Clone, Copy, Debug, PartialEq, Eq)]
pub enum IlasState {
    /// No character came yet.
    Idle,
    /// Each place so far obeys the rules.
    Going,
    /// The whole sequence obeys the rules.
    Done,
    /// The first place that breaks a rule, counted from 0, and why.
    Fault { place: u32, cause: IlasCause },
}
