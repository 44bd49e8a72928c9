//! Laws of what a lane sends, reports and puts into its buffer.
ghost use Rattle.lane_b.specs.laws.LaneLaws.{DoneLasts, FaultLasts, FirstEntry, LossLasts, NoneOutside, NoneUnstarted, OneEntryATick, OneLock, PlacesThenData, Replaces, Restores, SendsLast, SpellsOneChain, StartLasts, TenBitsATick, WordsStay};

/// The entries of a receiver lane: one more with each tick since a start inside the window, none
/// without one, and first those of the alignment sequence (JESD204B.01 clause 5.3.3.5).
pub fn entries_by_ticks()
    ensures one { OneEntryATick }
    ensures first { FirstEntry }
    ensures unstarted { NoneUnstarted }
    ensures outside { NoneOutside }
    ensures order { PlacesThenData }
{}

/// What lasts in a hunt, whatever a receiver lane takes later: its start, its loss, and how its
/// alignment sequence ended.
pub fn lasting_reports()
    ensures start { StartLasts }
    ensures loss { LossLasts }
    ensures fault { FaultLasts }
    ensures done { DoneLasts }
{}

/// The lock of a receiver lane (JESD204B.01 clause 5.3.3.1, code group synchronization): each one
/// that is dropped stands at the least place from the end of the one before on, and so does the
/// one that is held.
pub fn one_lock()
    ensures { OneLock }
{}

/// The words of a transmitter lane spell its characters in one chain of disparities (JESD204B.01
/// clause 5.3.1, 8b/10b).
pub fn one_chain()
    ensures { SpellsOneChain }
{}

/// The characters of data and what its readings give, as functions, are those of the relations
/// (JESD204B.01 clause 5.3.3.4, character replacement).
pub fn replaced_and_restored()
    ensures replaced { Replaces }
    ensures last { SendsLast }
    ensures restored { Restores }
{}

/// A transmitter lane sends one word of ten bits for each tick handed in, whatever is handed in
/// later.
pub fn ten_bits_a_tick()
    ensures ten { TenBitsATick }
    ensures stay { WordsStay }
{}
