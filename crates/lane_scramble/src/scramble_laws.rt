//! Laws of scrambling.
ghost use Rattle.lane_scramble.specs.laws.ScrambleLaws.{DescrambledAgain, ForgetsEarlier, GoesInParts, KeepLength, OnlyLastMatter, PartBefore};

/// What scrambling and descrambling have to do with each other and with the earlier bits, whatever
/// the two taps are.
pub fn scrambling()
    ensures again { DescrambledAgain }
    ensures forgets { ForgetsEarlier }
    ensures last { OnlyLastMatter }
    ensures parts { GoesInParts }
    ensures lengths { KeepLength }
    ensures before { PartBefore }
{}
