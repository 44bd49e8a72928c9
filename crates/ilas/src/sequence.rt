//! The sequence that is sent (JESD204B.01 clause 5.3.3.5, initial lane alignment).
ghost use Rattle.std.specs.Prelude.{◌≡◌, ◌<◌, ◌*◌};
ghost use Rattle.link_params.specs.declared.fields.Mode.TheVariants.{B};
ghost use Rattle.link_params.specs.Numbers.{period};
ghost use Rattle.ilas.specs.Sequence.{ilas_char};
ghost use Rattle.ilas.specs.laws.SequenceLaws.{CharAtEachPlace};

use code_8b10b::{Char, K28_0, K28_3, K28_4};
use link_params::{Link, config_octets};

/// The character of a place of the sequence, counted from 0: four multiframes, each from /R/ to /A/. The second one has
/// /Q/ and the configuration octets behind its /R/, and every other place is data, its number modulo 256.
pub fn ilas_char(link: &Link, lane: u32, place: u32) -> Char
    requires mode { link.now.params.mode ≡ B }
    requires lane { lane < link.now.params.l }
    requires place { place < 4 * period link.now.params }
    ensures { result ≡ ilas_char link.now.params lane place }
{
    let period = link.shape().period();
    let at = place % period;
    if at == 0 {
        return Char::Control(K28_0);
    }
    if at + 1 == period {
        return Char::Control(K28_3);
    }
    if place / period == 1 {
        if at == 1 {
            return Char::Control(K28_4);
        }
        if at <= 15 {
            return Char::Data(config_octets(link, lane)[(at - 2) as usize]);
        }
    }
    Char::Data((place % 256) as u8)
}

/// The sequence is `ilas_char`, place by place.
pub fn ilas()
    ensures { CharAtEachPlace }
{}
