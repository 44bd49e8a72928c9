//! Tests.
ghost use Rattle.std.specs.Prelude.{◌≡◌, ◌<◌, IfSome};
ghost use Rattle.link_params.specs.declared.fields.Mode.TheVariants.{B};

use crate::{IlasCheck, ilas_char};
use code_8b10b::{Char, Reading};
use link_params::{IlasCause, IlasState, Link, Mode, Params, Timing};

/// Two lanes, two converters of sixteen bits, a multiframe of 64 octets.
fn usual() -> Params {
    Params {
        mode: Mode::B,
        l: 2,
        m: 2,
        f: 2,
        s: 1,
        n: 16,
        np: 16,
        cs: 0,
        hd: false,
        scr: true,
        k: 32,
        e: 0,
    }
}

/// Converters of eight bits: a frame of one octet, and a multiframe of `k` octets.
fn short(k: u32) -> Params {
    Params {
        f: 1,
        n: 8,
        np: 8,
        k,
        ..usual()
    }
}

// A link of two 8b/10b lanes. The timing is legal with each multiframe of 17, 32 or 64 octets.
fn link_of(params: &Params) -> Option<Link>
    ensures { IfSome result (λ k. (k.params.mode ≡ B) × (k.params.l ≡ 2)) }
{
    let timing = Timing {
        sysref_period: 1088,
        sysref_start: 2,
        tx_skew: 8,
        rx_skew: 120,
        tolerance: 7,
        rbd: 0,
        sync_delay: 5,
        w_lo: 5,
        w_hi: 6,
    };
    if params.l != 2 {
        return None;
    }
    let Mode::B = params.mode else {
        return None;
    };
    match params.check() {
        Ok(shape) => match shape.with(&timing) {
            Ok(link) => Some(link),
            Err(_) => None,
        },
        Err(_) => None,
    }
}

// What lane 1 sends at a place.
fn sent(params: &Params, place: u32) -> Option<Char> {
    let link = link_of(params)?;
    if place < 4 * link.shape().period() {
        Some(ilas_char(&link, 1, place))
    } else {
        None
    }
}

// The state of a check of a lane after so many characters that another one sends.
fn state_after(params: &Params, sender: u32, lane: u32, count: u32) -> Option<IlasState> {
    let link = link_of(params)?;
    if 2 <= sender || 2 <= lane {
        return None;
    }
    let mut check = IlasCheck::new(&link, lane);
    let mut state = IlasState::Idle;
    let end = count.min(4 * link.shape().period());
    for place in 0..end {
        state = check.push(Reading::Char(ilas_char(&link, sender, place)));
    }
    Some(state)
}

// The state of a check of lane 0 after the whole sequence, with another reading at one place.
fn state_with(changed: u32, reading: Reading) -> Option<IlasState> {
    let link = link_of(&usual())?;
    let mut check = IlasCheck::new(&link, 0);
    let mut state = IlasState::Idle;
    for place in 0..4 * link.shape().period() {
        let due = Reading::Char(ilas_char(&link, 0, place));
        state = check.push(if place == changed { reading } else { due });
    }
    Some(state)
}

#[test]
fn characters_of_a_lane(rt: HostRuntime) {
    let (x, least) = (usual(), short(17));
    let unscrambled = Params { scr: false, ..x };
    let table = [
        (x, 0, Char::Control(0x1C)),
        (x, 1, Char::Data(1)),
        (x, 63, Char::Control(0x7C)),
        (x, 65, Char::Control(0x9C)),
        (x, 68, Char::Data(1)),
        (x, 69, Char::Data(0x81)),
        (x, 79, Char::Data(0x44)),
        (x, 80, Char::Data(80)),
        (x, 255, Char::Control(0x7C)),
        (unscrambled, 69, Char::Data(0x01)),
        (unscrambled, 79, Char::Data(0x43)),
        (least, 18, Char::Control(0x9C)),
        (least, 32, Char::Data(0x24)),
        (least, 33, Char::Control(0x7C)),
        (least, 34, Char::Control(0x1C)),
        (short(32), 47, Char::Data(0x33)),
        (short(32), 48, Char::Data(48)),
    ];
    for (params, place, want) in table {
        assert_eq!(rt; sent(&params, place), Some(want), "at {place}");
    }
}

fn data(octet: u8) -> Reading {
    Reading::Char(Char::Data(octet))
}

fn control(octet: u8) -> Reading {
    Reading::Char(Char::Control(octet))
}

fn fault(place: u32, cause: IlasCause) -> IlasState {
    IlasState::Fault { place, cause }
}

#[test]
fn checks_of_two_lanes(rt: HostRuntime) {
    let (x, least) = (usual(), short(17));
    let other_lane = fault(68, IlasCause::LaneId { lid: 1 });
    let table = [
        (x, 0, 0, 255, IlasState::Going),
        (x, 0, 0, 256, IlasState::Done),
        (x, 1, 1, 256, IlasState::Done),
        (x, 1, 0, 68, IlasState::Going),
        (x, 1, 0, 69, other_lane),
        (x, 1, 0, 256, other_lane),
        (Params { scr: false, ..x }, 0, 0, 256, IlasState::Done),
        (least, 0, 0, 67, IlasState::Going),
        (least, 0, 0, 68, IlasState::Done),
        (short(32), 0, 0, 128, IlasState::Done),
    ];
    for (at, (params, sender, lane, count, want)) in table.iter().enumerate() {
        let state = state_after(params, *sender, *lane, *count);
        assert_eq!(rt; state, Some(*want), "at {at}");
    }
}

#[test]
fn one_reading_is_another(rt: HostRuntime) {
    let table = [
        (0, data(0x1C), fault(0, IlasCause::Wrong)),
        (5, Reading::Invalid, fault(5, IlasCause::Code)),
        (
            6,
            Reading::Disparity(Char::Data(6)),
            fault(6, IlasCause::Code),
        ),
        (10, data(200), IlasState::Done),
        (10, control(0x1C), fault(10, IlasCause::Wrong)),
        (63, control(0x1C), fault(63, IlasCause::Wrong)),
        (66, data(0xFF), fault(79, IlasCause::Fchk)),
        (69, data(0x01), fault(69, IlasCause::Config)),
        (79, data(0x00), IlasState::Done),
        (79, data(0x44), fault(79, IlasCause::Fchk)),
    ];
    for (place, reading, want) in table {
        assert_eq!(rt; state_with(place, reading), Some(want), "at {place}");
    }
}
