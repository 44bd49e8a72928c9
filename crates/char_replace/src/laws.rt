//! A law of replacement.
ghost use Rattle.char_replace.specs.laws.ReplaceLaws.{RestoresOctets};

/// Where each character is read as it was sent, the octets come back.
pub fn replacement_laws()
    ensures { RestoresOctets }
{}
