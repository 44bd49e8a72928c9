//! Hexadecimal digits.
ghost use Rattle.std.specs.Prelude.{◌≡◌, ◌≤◌, length};
ghost use Rattle.scenario.specs.Digits.{hex_digit, hex_digits};

fn digit_of(value: u32) -> u8
    requires { value ≤ 15 }
    ensures { result ≡ hex_digit value }
{
    if value < 10 {
        b'0' + value as u8
    } else {
        b'a' + (value - 10) as u8
    }
}

/// Fills the places with the low hexadecimal digits of a word, in lower case, the most significant
/// first. There are at most eight.
pub fn write_digits(word: u32, places: &mut [u8])
    requires { length places.old ≤ 8 }
    ensures { places.new ≡ hex_digits (length places.old) word }
{
    let mut left = places.len() as u32;
    for place in places.iter_mut() {
        left -= 1;
        *place = digit_of((word >> (4 * left)) % 16);
    }
}
