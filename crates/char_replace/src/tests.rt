//! Worked examples of replacement, and what faults give.
ghost use Rattle.std.specs.Prelude.{◌≡◌, IfSome};
ghost use Rattle.link_params.specs.declared.fields.Mode.TheVariants.{B};

use crate::{Replace, Restore, Restored};
use code_8b10b::{Char, Reading};
use link_params::{Mode, Params, Shape};

const D: Char = Char::Data(0x55);

const A: Char = Char::Control(0x7C);

const F: Char = Char::Control(0xFC);

// One lane of octets, with F octets a frame and K frames a multiframe.
fn shape(f: u32, k: u32, scr: bool) -> Option<Shape>
    ensures { IfSome result (λ s. s.mode ≡ B) }
{
    let params = Params {
        mode: Mode::B,
        l: 1,
        m: f,
        f,
        s: 1,
        n: 8,
        np: 8,
        cs: 0,
        hd: false,
        scr,
        k,
        e: 0,
    };
    match params.check() {
        Ok(shape) => Some(shape),
        Err(_) => None,
    }
}

// How the octet at a place is sent, and what that is read as, where each octet up to it is this one.
fn sent(f: u32, k: u32, scr: bool, octet: u8, place: u32) -> Option<(Char, Restored)> {
    let shape = shape(f, k, scr)?;
    let period = shape.period();
    let mut replace = Replace::new(&shape);
    let mut restore = Restore::new(&shape);
    for x in 0..place {
        restore.push(x % period, Reading::Char(replace.push(x % period, octet)));
    }
    let c = replace.push(place % period, octet);
    Some((c, restore.push(place % period, Reading::Char(c))))
}

fn clean(octet: u8) -> Restored {
    Restored {
        octet,
        bad: false,
        fault: false,
    }
}

#[test]
fn replaces_and_restores(rt: HostRuntime) {
    let frames_of_one = [D, F, D, F, D, F, D, F, D, F, D, F, D, F, D, F, A, D, F];
    for (place, c) in (0..19).zip(frames_of_one) {
        assert_eq!(rt;
            sent(1, 17, false, 0x55, place),
            Some((c, clean(0x55))),
            "{place}"
        );
    }
    let rows = [
        (2, 9, false, 0x55, 1, D),
        (2, 9, false, 0x55, 2, D),
        (2, 9, false, 0x55, 3, F),
        (2, 9, false, 0x55, 5, D),
        (2, 9, false, 0x55, 17, A),
        (2, 9, false, 0x55, 19, D),
        (2, 32, false, 0x55, 61, D),
        (2, 32, false, 0x55, 63, A),
        (2, 32, false, 0x55, 67, F),
        (1, 17, true, 0x7C, 15, Char::Data(0x7C)),
        (1, 17, true, 0x7C, 16, A),
        (1, 17, true, 0xFC, 0, F),
        (1, 17, true, 0xFC, 16, Char::Data(0xFC)),
        (2, 9, true, 0xFC, 2, Char::Data(0xFC)),
        (2, 9, true, 0xFC, 3, F),
    ];
    for (f, k, scr, octet, place, c) in rows {
        assert_eq!(rt;
            sent(f, k, scr, octet, place),
            Some((c, clean(octet))),
            "{place}"
        );
    }
}

// What a place gives, where each place before had the same reading, with one octet a frame and 17 a multiframe.
fn given(before: Reading, place: u32, reading: Reading) -> Option<Restored> {
    let shape = shape(1, 17, false)?;
    let mut restore = Restore::new(&shape);
    for x in 0..place {
        restore.push(x, before);
    }
    Some(restore.push(place, reading))
}

#[test]
fn marks_faults(rt: HostRuntime) {
    let rows = [
        (Reading::Char(D), 1, Reading::Char(F), (0x55, false, false)),
        (
            Reading::Disparity(D),
            1,
            Reading::Char(F),
            (0x55, true, false),
        ),
        (Reading::Invalid, 1, Reading::Char(F), (0, true, false)),
        (
            Reading::Disparity(D),
            16,
            Reading::Char(A),
            (0x55, true, false),
        ),
        (
            Reading::Char(D),
            1,
            Reading::Disparity(F),
            (0x55, true, true),
        ),
        (Reading::Char(D), 16, Reading::Char(F), (0xFC, true, true)),
        (Reading::Char(D), 1, Reading::Char(A), (0x7C, true, true)),
        (Reading::Char(D), 0, Reading::Char(F), (0xFC, true, true)),
        (Reading::Char(D), 1, Reading::Invalid, (0, true, true)),
    ];
    for (before, place, reading, (octet, bad, fault)) in rows {
        let want = Restored { octet, bad, fault };
        assert_eq!(rt; given(before, place, reading), Some(want), "{place}");
    }
}
