//! Tests.
use crate::Crc12;

fn check_of(words: &[u64]) -> u16 {
    let mut check = Crc12::new();
    for word in words {
        check.push64(*word);
    }
    check.value()
}

#[test]
fn checks_of_multiblocks(rt: HostRuntime) {
    // 2,047 zeros and a one
    let mut last_bit = [0u64; 32];
    last_bit[31] = 1;
    assert_eq!(rt; check_of(&last_bit), 0x30f);

    let mut counting = [0u64; 32];
    for i in 0..32usize {
        counting[i] = i as u64;
    }
    assert_eq!(rt; check_of(&counting), 0x49a);
    assert_eq!(rt; check_of(&[0x0123_4567_89ab_cdef; 32]), 0xd71);
    assert_eq!(rt; check_of(&[]), 0);
}
