//! The laws of the runs of links of any mode.
ghost use Rattle.link_laws_c.specs.RunLaws.{RunsByLaws};

/// The laws of the run of each plan that was read, with 8b/10b lanes or with 64b/66b lanes
/// (JESD204B.01 clauses 5.3.3 link operation and 6 deterministic latency; JESD204C.1, 64b/66b link
/// layer).
///
/// Whatever comes on the lines: no elastic buffer holds more entries than it has room for, each has
/// one to give while the lanes run, and the fullest buffer of the report is within its depth; each
/// delivered frame has exactly the mark that the received characters or blocks that it depends on
/// give; and in what an 8b/10b lane sends, also across the transmitter's resets, the forty bits of
/// a lock stand only where a character begins.
///
/// Where SYSREF edges and lanes meet their windows, on a clean line, or with one burst in each
/// multiblock under FEC, and no pattern of a lock of 64b/66b lanes stands where no multiblock
/// begins, each frame leaves unchanged exactly the link's latency after it entered, and on a clean
/// line delivery starts within the link's bound. Where a lane is outside its window, an alarm is
/// raised for such a lane, and nothing is released.
///
/// These follow from the laws of one lane, which hold too: when it locks, when it starts, and what
/// it hands on.
pub fn laws_of_runs()
    ensures laws { RunsByLaws }
{}
