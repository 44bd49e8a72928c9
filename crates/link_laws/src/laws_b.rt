//! The laws of the runs of 8b/10b lanes.
ghost use Rattle.link_laws.specs.LawsB.{LaneLawsB, RunsByLawsB};

/// The laws of the run of each plan that was read, with 8b/10b lanes (JESD204B.01 clauses 5.3.3
/// link operation and 6 deterministic latency).
///
/// Whatever comes on the lines: no elastic buffer holds more entries than it has room for, and each
/// has one to give while the lanes run; each delivered frame has exactly the mark that the received
/// characters it depends on give; and in what a lane sends, also across the transmitter's resets,
/// the forty bits of a lock stand only where a character begins.
///
/// Where SYSREF edges and lanes meet their windows on an undisturbed line, each frame leaves
/// unchanged exactly the link's latency after it entered, and delivery starts within the link's
/// bound. Where a lane is outside its window, an alarm is raised for such a lane, and nothing is
/// released.
///
/// These follow from the laws of one lane, which hold too: when it locks, when it starts, and what
/// it hands on. `lanes` says these for any pattern of a lock.
pub fn laws_of_lanes_b()
    ensures run { RunsByLawsB }
    ensures lanes { LaneLawsB }
{}
