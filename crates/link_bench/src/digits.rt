//! Hexadecimal digits of words and lanes.
ghost use Rattle.std.specs.Prelude.{◌≡◌, ◌≤◌, ◌∷◌, ◌++◌, ◌*◌, length, OnOk};
ghost use Rattle.hex.specs.Hex.{encode_lower};
ghost use Rattle.scenario.specs.Digits.{hex_digits};

use scenario::write_digits;
use std::alloc::AllocError;

/// Appends the low `count` hexadecimal digits of a word.
pub(crate) fn push_word(text: &mut Vec<u8>, word: u32, count: u32) -> Result<(), AllocError>
    requires { count ≤ 8 }
    ensures { OnOk result (text.new.items ≡ text.old.items ++ hex_digits count word) }
{
    let mut digits = [0; 8];
    let places = &mut digits[..count as usize];
    write_digits(word, places);
    text.extend_from_slice(places)
}

/// Appends a comma and the octets of a lane, two digits each; `digits` has room for them.
pub(crate) fn push_lane(
    text: &mut Vec<u8>,
    digits: &mut [u8],
    lane: &[u8],
) -> Result<(), AllocError>
    requires { length digits.old ≡ 2 * length lane.now }
    ensures { OnOk result (text.new.items ≡ text.old.items ++ (44 ∷ encode_lower lane.now)) }
{
    if hex::encode_to_slice(lane, digits).is_err() {
        unreachable!();
    }
    text.push(b',')?;
    text.extend_from_slice(digits)
}
