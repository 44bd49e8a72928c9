//! The laws of a link's parameters, in order.
ghost use Rattle.std.specs.Prelude.{◌≡◌};
ghost use Rattle.link_params.specs.Laws.{broken_law, is_b};

use crate::fields::{Mode, Params};

/// Whether the lanes are 8b/10b lanes.
pub(crate) fn is_mode_b(mode: Mode) -> bool
    ensures { result ≡ is_b mode }
{
    match mode {
        Mode::B => true,
        Mode::CCrc | Mode::CFec => false,
    }
}

/// The number of the first of laws 1 to 12 that does not hold.
pub(crate) fn first_broken_law(p: &Params) -> Option<u8>
    ensures { result ≡ broken_law p.now }
{
    if p.l < 1 || p.l > 32 {
        return Some(1);
    }
    if p.m < 1 || p.m > 256 {
        return Some(2);
    }
    if p.f < 1 || p.f > 256 {
        return Some(3);
    }
    if p.s < 1 || p.s > 32 {
        return Some(4);
    }
    if p.n < 1 || p.n > 32 {
        return Some(5);
    }
    if p.np < 1 || p.np > 32 {
        return Some(6);
    }
    if p.cs > 3 {
        return Some(7);
    }
    if p.n + p.cs > p.np {
        return Some(8);
    }
    let words = p.m * p.s;
    if !p.hd && words % p.l != 0 {
        return Some(9);
    }
    let octets = if p.hd {
        (words * p.np + (8 * p.l - 1)) / (8 * p.l)
    } else {
        (words / p.l * p.np + 7) / 8
    };
    if p.f != octets {
        return Some(10);
    }
    if is_mode_b(p.mode) {
        let least = (17 + (p.f - 1)) / p.f;
        let most = (1024 / p.f).min(32);
        if p.e != 0 || p.k < least || p.k > most {
            return Some(11);
        }
    } else {
        if p.k != 0 || !p.scr || p.e < 1 || p.e > 32 {
            return Some(11);
        }
        if 256 * p.e % p.f != 0 {
            return Some(12);
        }
    }
    None
}
