//! Tests.
use crate::{BitWindow, SyncBit, pack, unpack};

#[test]
fn blocks_and_their_parts(rt: HostRuntime) {
    assert_eq!(rt; pack(true, 0), 1 << 64);
    assert_eq!(rt; pack(false, 1), (1 << 65) + 1);
    for (block, sync, payload) in [
        (0u128, SyncBit::Bad, 0u64),
        (1 << 64, SyncBit::One, 0),
        ((1 << 65) + 1, SyncBit::Zero, 1),
        ((1 << 66) - 1, SyncBit::Bad, u64::MAX),
    ] {
        assert!(rt; unpack(block) == (sync, payload), "at {payload}");
    }
}

#[test]
fn windows_over_two_ticks(rt: HostRuntime) {
    let first = 0x2_0123_4567_89ab_cdef;
    let second = 0x1_fedc_ba98_7654_3210;
    for (rest, one, two) in [
        (0u8, first, second),
        (3, 0x4024_68ac_f135_79bd, 0x3_bfdb_9753_0eca_8642),
        (65, 1, 0x246_8acf_1357_9bde),
    ] {
        let mut window = BitWindow::new(rest);
        assert_eq!(rt; window.push(first), one, "at {rest}");
        assert_eq!(rt; window.push(second), two, "at {rest}");
    }
}

#[test]
fn a_block_across_two_ticks(rt: HostRuntime) {
    let block = pack(true, 0x0123_4567_89ab_cdef);
    let mut window = BitWindow::new(3);
    let (before, _payload) = unpack(window.push(block >> 63));
    assert_eq!(rt; before, SyncBit::Bad);
    let read = unpack(window.push((block % (1 << 63)) << 3));
    assert!(rt; read == (SyncBit::One, 0x0123_4567_89ab_cdef));
}
