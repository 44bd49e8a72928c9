//! What ends at a place of a multiframe.
ghost use Rattle.std.specs.Prelude.{ℕ, ◌≡◌, ◌≤◌, ◌%◌, ◌+◌, ◌==◌, ◌&&◌, ◌||◌, not};
ghost use Rattle.link_params.specs.Numbers.{period};
ghost use Rattle.char_replace.specs.kept.Ends.{IsSerial};
ghost use Rattle.char_replace.specs.Replacement.{ends_multiframe, is_data};

use code_8b10b::{Char, K28_3, K28_7};
use link_params::{Params, place_in_frame};

/// Whether a control character is the alignment character of a place: /A/ where a multiframe ends
/// (`whole`), /F/ where another frame does (`end`: a frame ends there).
pub fn is_alignment_of(octet: u8, end: bool, whole: bool) -> bool
    ensures { result ≡ (((octet == 0x7C) && whole) || ((octet == 0xFC) && (end && not whole))) }
{
    octet == K28_3 && whole || octet == K28_7 && end && !whole
}

/// Whether a frame ends at this place of a multiframe.
pub(crate) fn is_frame_end(params: &Params, place: u32) -> bool
    requires { IsSerial params.now }
    ensures { (x : ℕ) → place ≡ x % period params.now → result ≡ (x % params.now.f + 1 == params.now.f) }
{
    place_in_frame(place, params.f) + 1 == params.f
}

/// Whether the multiframe ends at this place of it.
pub(crate) fn is_multiframe_end(params: &Params, place: u32) -> bool
    requires { IsSerial params.now }
    ensures { (x : ℕ) → place ≡ x % period params.now → result ≡ ends_multiframe params.now x }
{
    place == params.f * params.k - 1
}

pub(crate) fn is_data(c: Char) -> bool
    ensures { result ≡ is_data c }
{
    match c {
        Char::Data(_) => true,
        Char::Control(_) => false,
    }
}
