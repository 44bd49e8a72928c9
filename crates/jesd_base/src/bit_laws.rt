//! Laws of bits, numbers and long division.
ghost use Rattle.jesd_base.specs.laws.BitLaws.{BitsLength, BitsOfBoth, BitsOfParts, BitsOfValue, ValueBelow, ValueOfAppend, ValueOfBits, ZerosLength};
ghost use Rattle.jesd_base.specs.laws.DivisionLaws.{DivisionIsShifting, RemainderGoesOn, RemainderIsLinear, RemainderLength, SumIsXor, ZerosInFront};
ghost use Rattle.jesd_base.specs.Search.{FindsLeast, FindsNone};

/// How lists of bits and numbers go together.
pub fn bits_and_numbers()
    ensures length { BitsLength }
    ensures value_of_bits { ValueOfBits }
    ensures bits_of_value { BitsOfValue }
    ensures below { ValueBelow }
    ensures append { ValueOfAppend }
    ensures both { BitsOfBoth }
    ensures parts { BitsOfParts }
    ensures zeros { ZerosLength }
    ensures least { FindsLeast }
    ensures none { FindsNone }
{}

/// What long division has to do with sums, shift registers and bits that come later.
pub fn division()
    ensures shifting { DivisionIsShifting }
    ensures xor { SumIsXor }
    ensures linear { RemainderIsLinear }
    ensures length { RemainderLength }
    ensures zeros { ZerosInFront }
    ensures goes_on { RemainderGoesOn }
{}
