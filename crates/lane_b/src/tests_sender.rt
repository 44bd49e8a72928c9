//! Worked words of a transmitter lane.
ghost use Rattle.std.specs.Prelude.{◌≡◌, IfSome};
ghost use Rattle.link_params.specs.declared.fields.Mode.TheVariants.{B};

use crate::TxLaneB;
use code_8b10b::{Char, Rd, encode};
use link_params::{Link, Mode, Params, Timing, TxOrder};
use std::test::Fail;

// D21.2, /F/ and /A/ at negative disparity, and /F/ at positive disparity, which /A/ leaves.
const D: u16 = 0x2A5;

const F: u16 = 0x0F8;

const A: u16 = 0x0F3;

const F_AFTER_A: u16 = 0x307;

// One lane with a frame of one octet and a multiframe of 17.
fn link(scr: bool) -> Option<Link>
    ensures { IfSome result (λ k. (k.params.mode ≡ B) × (k.params.l ≡ 1)) }
{
    let params = Params {
        mode: Mode::B,
        l: 1,
        m: 1,
        f: 1,
        s: 1,
        n: 8,
        np: 8,
        cs: 0,
        hd: false,
        scr,
        k: 17,
        e: 0,
    };
    let timing = Timing {
        sysref_period: 1088,
        sysref_start: 2,
        tx_skew: 8,
        rx_skew: 120,
        tolerance: 7,
        rbd: 0,
        sync_delay: 5,
        w_lo: 5,
        w_hi: 6,
    };
    match params.check() {
        Ok(shape) => match shape.with(&timing) {
            Ok(link) => Some(link),
            Err(_) => None,
        },
        Err(_) => None,
    }
}

// The words of the first orders of a link, and of one more after a reset.
fn first_words() -> Option<[u16; 6]> {
    let link = link(false)?;
    let period = link.shape().period();
    let mut sender = TxLaneB::new(&link, 0);
    let commas = [
        sender.tick(TxOrder::Comma, 0),
        sender.tick(TxOrder::Comma, 0),
    ];
    let places = [
        sender.tick(TxOrder::Ilas(0), 0),
        sender.tick(TxOrder::Ilas(period - 1), 0),
    ];
    let data = sender.tick(
        TxOrder::Data {
            place: 0,
            first: true,
        },
        0x55,
    );
    sender.clear();
    let comma = sender.tick(TxOrder::Comma, 0);
    Some([commas[0], commas[1], places[0], places[1], data, comma])
}

// The word of the last of so many data octets that are this one.
fn data_word(scr: bool, octet: u8, count: u32) -> Option<u16> {
    let link = link(scr)?;
    let period = link.shape().period();
    let mut sender = TxLaneB::new(&link, 0);
    let first = TxOrder::Data {
        place: 0,
        first: true,
    };
    let mut word = sender.tick(first, octet);
    let mut place = 1 % period;
    for _ in 1..count {
        let order = TxOrder::Data {
            place,
            first: false,
        };
        word = sender.tick(order, octet);
        place = (place + 1) % period;
    }
    Some(word)
}

#[test]
fn sends_commas_and_places(rt: HostRuntime) {
    let wanted = [0x0FA, 0x305, 0x0F4, A, D, 0x0FA];
    assert_eq!(rt; first_words(), Some(wanted));
}

#[test]
fn sends_data(rt: HostRuntime) {
    let rows = [
        (Rd::Minus, Char::Data(0x55), D, Rd::Minus),
        (Rd::Plus, Char::Data(0x55), D, Rd::Plus),
        (Rd::Minus, Char::Control(0xFC), F, Rd::Minus),
        (Rd::Minus, Char::Control(0x7C), A, Rd::Plus),
        (Rd::Plus, Char::Control(0xFC), F_AFTER_A, Rd::Plus),
    ];
    for (rd, c, word, next) in rows {
        assert_eq!(rt; encode(rd, c), Some((word, next)), "{word}");
    }
    let words = [
        D, F, D, F, D, F, D, F, D, F, D, F, D, F, D, F, A, D, F_AFTER_A,
    ];
    for (count, word) in (1..20).zip(words) {
        assert_eq!(rt; data_word(false, 0x55, count), Some(word), "{count}");
    }
}

// The octets 00 00 are 01 00 when they are scrambled: D1.0 and D0.0.
#[test]
fn sends_scrambled_data(rt: HostRuntime) {
    assert_eq!(rt; data_word(true, 0, 1), Some(0x1D4));
    assert_eq!(rt; data_word(true, 0, 2), Some(0x274));
}

// The words of a run of this octet, after a first one.
fn run_words(scr: bool, octet: u8) -> Option<[u16; 18]> {
    let link = link(scr)?;
    let place = 1 % link.shape().period();
    let mut sender = TxLaneB::new(&link, 0);
    let first = TxOrder::Data {
        place: 0,
        first: true,
    };
    sender.tick(first, octet);
    let mut words = [0; 18];
    sender.run(place, &[octet; 18], &mut words);
    Some(words)
}

#[test]
fn a_run_sends_what_its_ticks_send(rt: HostRuntime) -> Result<(), Fail> {
    for (scr, octet) in [(false, 0x55), (true, 0), (true, 0xFC)] {
        let words = run_words(scr, octet).ok_or("link")?;
        for (count, word) in (2..20).zip(words) {
            assert_eq!(rt; data_word(scr, octet, count), Some(word), "{count}");
        }
    }
    Ok(())
}
