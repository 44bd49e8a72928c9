//! Tests.
use crate::{Scr15, Scr58};

#[test]
fn scrambles_octets(rt: HostRuntime) {
    let mut sender = Scr15::new();
    assert_eq!(rt; sender.scramble(0x00), 0x01);
    assert_eq!(rt; sender.scramble(0x00), 0x00);

    let mut sender = Scr15::new();
    let mut receiver = Scr15::new();
    for octet in [0x00, 0xff, 0x55, 0xaa, 0xbc, 0x1c, 0x7c, 0xfc, 0x01, 0x80] {
        let sent = sender.scramble(octet);
        assert_eq!(rt; receiver.descramble(sent), octet, "at {octet}");
    }
}

#[test]
fn scrambles_payloads(rt: HostRuntime) {
    let mut sender = Scr58::new();
    // 39 zeros, 19 ones, 6 zeros
    assert_eq!(rt; sender.scramble(0), 0x0000_0000_01ff_ffc0);

    let mut sender = Scr58::new();
    let mut receiver = Scr58::new();
    for word in [
        0,
        u64::MAX,
        0x0123_4567_89ab_cdef,
        1,
        1 << 63,
        0x5555_aaaa_5555_aaaa,
    ] {
        let sent = sender.scramble(word);
        assert_eq!(rt; receiver.descramble(sent), word, "at {word}");
    }
}
