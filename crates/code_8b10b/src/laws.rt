//! Laws of the code and of the commas' places.
ghost use Rattle.code_8b10b.specs.laws.CodeLaws.{OneCharacter, OneReading, ReadsSpelling, TenBits};
ghost use Rattle.code_8b10b.specs.laws.CommaLaws.{ChainIsSpelled, FindsLeastPlace, FindsNoPlace, NoImitation, NoSlip};

/// What spellings and readings have to do with each other.
pub fn code_laws()
    ensures one { OneCharacter }
    ensures ten { TenBits }
    ensures reading { OneReading }
    ensures spelling { ReadsSpelling }
{}

/// Where four commas can stand: the least place is found, and in characters sent one after another they stand
/// only where a character begins.
pub fn comma_places()
    ensures least { FindsLeastPlace }
    ensures none { FindsNoPlace }
    ensures no_slip { NoSlip }
    ensures chain { ChainIsSpelled }
    ensures no_imitation { NoImitation }
{}
