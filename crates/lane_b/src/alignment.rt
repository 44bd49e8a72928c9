//! What a receiver lane allows and accepts at a place, counted from the start of its alignment sequence.
ghost use Rattle.std.specs.Prelude.{◌≡◌, ◌<◌, ◌*◌};
ghost use Rattle.link_params.specs.declared.fields.Mode.TheVariants.{B};
ghost use Rattle.link_params.specs.Numbers.{period};
ghost use Rattle.lane_b.specs.Loss.{alignment_at, is_accepted_since, is_alignment, is_wrong_in_ilas, stands_in_ilas};

use char_replace::is_alignment_of;
use code_8b10b::{Char, K28_3, K28_7, Reading};
use ilas::{ilas_char, is_allowed};
use link_params::{Link, Shape};

/// Whether a reading is a fault at a place of the alignment sequence.
pub fn is_wrong_in_ilas(link: &Link, place: u32, reading: Reading) -> bool
    requires mode { link.now.params.mode ≡ B }
    requires lanes { 0 < link.now.params.l }
    requires place { place < 4 * period link.now.params }
    ensures { result ≡ is_wrong_in_ilas link.now.params place reading }
{
    match reading {
        Reading::Char(c) => !is_allowed(ilas_char(link, 0, place), c),
        Reading::Disparity(_) | Reading::Invalid => true,
    }
}

/// True for an accepted alignment character, false for one that is read as Char at a place that does not accept it, nothing for
/// another reading.
pub fn alignment_at(shape: &Shape, place: u32, reading: Reading) -> Option<bool>
    ensures { result ≡ alignment_at shape.now place reading }
{
    match reading {
        Reading::Char(c) if is_accepted(shape, place, c) => Some(true),
        Reading::Char(c) if is_alignment(c) => Some(false),
        Reading::Disparity(c) if is_accepted(shape, place, c) => Some(true),
        Reading::Char(_) | Reading::Disparity(_) | Reading::Invalid => None,
    }
}

// In data without scrambling no alignment character is accepted in the first frame.
fn is_accepted(shape: &Shape, place: u32, c: Char) -> bool
    ensures { result ≡ is_accepted_since shape.now place c }
{
    let length = 4 * shape.period();
    if place < length {
        return stands(shape, place, c);
    }
    let place = place - length;
    stands(shape, place, c) && (shape.params().scr || shape.frame_octets() <= place)
}

// Whether a character is /A/ where a multiframe ends, or /F/ where another frame does.
fn stands(shape: &Shape, place: u32, c: Char) -> bool
    ensures { result ≡ stands_in_ilas shape.now place c }
{
    let Char::Control(octet) = c else {
        return false;
    };
    let (period, frame) = (shape.period(), shape.frame_octets());
    let whole = place % period + 1 == period;
    let end = place % frame + 1 == frame;
    is_alignment_of(octet, end, whole)
}

fn is_alignment(c: Char) -> bool
    ensures { result ≡ is_alignment c }
{
    matches!(c, Char::Control(K28_3 | K28_7))
}
