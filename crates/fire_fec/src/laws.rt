//! Laws of bursts, parity and correction.
ghost use Rattle.fire_fec.specs.laws.BurstLaws.{OneBurstIsFound, OnlyPair};
ghost use Rattle.fire_fec.specs.laws.CorrectionLaws.{OneBurstIsCorrected, ParityBelow, ParityMakesWhole};
ghost use Rattle.fire_fec.specs.laws.ShiftingLaws.{TimesXIsRemainder, TimesAndOverUndo, BurstIsTrapped};

/// The burst of a word is found from its remainder, is the only one, and is taken out by adding
/// it again.
pub fn bursts()
    ensures trapped { BurstIsTrapped }
    ensures only { OnlyPair }
    ensures found { OneBurstIsFound }
{}

/// What a parity is to a correction: a payload sent with its parity is whole, and one burst added
/// to both is corrected.
pub fn corrections()
    ensures below { ParityBelow }
    ensures whole { ParityMakesWhole }
    ensures corrected { OneBurstIsCorrected }
{}

/// Multiplying a remainder by x is long division, and is undone by dividing it by x.
pub fn shifts()
    ensures times { TimesXIsRemainder }
    ensures undo { TimesAndOverUndo }
{}
