//! Worked examples of the code and of the hunt.
use super::*;

#[test]
fn spells_and_reads(rt: HostRuntime) {
    let rows = [
        (Rd::Minus, Char::Control(K28_0), 0x0F4, Rd::Minus),
        (Rd::Minus, Char::Control(K28_3), 0x0F3, Rd::Plus),
        (Rd::Minus, Char::Control(K28_4), 0x0F2, Rd::Minus),
        (Rd::Minus, Char::Control(K28_5), 0x0FA, Rd::Plus),
        (Rd::Plus, Char::Control(K28_5), 0x305, Rd::Minus),
        (Rd::Minus, Char::Control(K28_7), 0x0F8, Rd::Minus),
        (Rd::Minus, Char::Data(0xF1), 0x237, Rd::Plus),
        (Rd::Plus, Char::Data(0xF1), 0x231, Rd::Minus),
    ];
    for (rd, c, word, next) in rows {
        assert_eq!(rt; encode(rd, c), Some((word, next)), "{word}");
        assert_eq!(rt; decode(rd, word), (Reading::Char(c), next), "{word}");
    }
    assert_eq!(rt; encode(Rd::Minus, Char::Control(0)), None);
    let other = (Reading::Disparity(Char::Control(K28_5)), Rd::Plus);
    assert_eq!(rt; decode(Rd::Plus, 0x0FA), other);
    assert_eq!(rt; decode(Rd::Plus, 0), (Reading::Invalid, Rd::Minus));
}

// Row p is p zero bits, four commas, and zero bits up to fifty.
#[rattlefmt::skip]
const FROM_MINUS: [[u16; 5]; 10] = [
    [0x0FA, 0x305, 0x0FA, 0x305, 0x000],
    [0x07D, 0x182, 0x27D, 0x182, 0x200],
    [0x03E, 0x2C1, 0x13E, 0x2C1, 0x100],
    [0x01F, 0x160, 0x29F, 0x160, 0x280],
    [0x00F, 0x2B0, 0x14F, 0x2B0, 0x140],
    [0x007, 0x358, 0x0A7, 0x358, 0x0A0],
    [0x003, 0x3AC, 0x053, 0x3AC, 0x050],
    [0x001, 0x3D6, 0x029, 0x3D6, 0x028],
    [0x000, 0x3EB, 0x014, 0x3EB, 0x014],
    [0x000, 0x1F5, 0x20A, 0x1F5, 0x20A],
];

#[rattlefmt::skip]
const FROM_PLUS: [[u16; 5]; 10] = [
    [0x305, 0x0FA, 0x305, 0x0FA, 0x000],
    [0x182, 0x27D, 0x182, 0x27D, 0x000],
    [0x0C1, 0x13E, 0x2C1, 0x13E, 0x200],
    [0x060, 0x29F, 0x160, 0x29F, 0x100],
    [0x030, 0x14F, 0x2B0, 0x14F, 0x280],
    [0x018, 0x0A7, 0x358, 0x0A7, 0x340],
    [0x00C, 0x053, 0x3AC, 0x053, 0x3A0],
    [0x006, 0x029, 0x3D6, 0x029, 0x3D0],
    [0x003, 0x014, 0x3EB, 0x014, 0x3E8],
    [0x001, 0x20A, 0x1F5, 0x20A, 0x1F4],
];

// Which of the words, from `first` on, ends the hunt, and how.
fn lock_of(hunt: &mut Hunt, words: &[u16; 5], first: usize) -> Option<(usize, Lock)> {
    for index in first..5 {
        if let Some(lock) = hunt.push(words[index] & 0x3FF) {
            return Some((index, lock));
        }
    }
    None
}

#[test]
fn locks_at_each_phase(rt: HostRuntime) {
    for (table, rd) in [(FROM_MINUS, Rd::Minus), (FROM_PLUS, Rd::Plus)] {
        for (phase, words) in table.iter().enumerate() {
            let rest = if phase == 0 { 0 } else { 10 - phase as u8 };
            let wanted = Some((if phase == 0 { 3 } else { 4 }, Lock { rest, rd }));
            assert_eq!(rt; lock_of(&mut Hunt::new(), words, 0), wanted, "{phase}");
            if phase > 0 {
                let mut resumed = Hunt::resume(words[0] & 0x3FF, rest);
                assert_eq!(rt; lock_of(&mut resumed, words, 1), wanted, "{phase}");
            }
        }
    }
}

// The two bits before the last eight of the first comma do not count.
#[test]
fn resumes_in_a_comma(rt: HostRuntime) {
    let mut hunt = Hunt::resume(0x0FA, 8);
    for word in [0x305, 0x0FA, 0x305] {
        assert_eq!(rt; hunt.push(word), None, "{word}");
    }
    assert_eq!(rt;
        hunt.push(0x0FA),
        Some(Lock {
            rest: 0,
            rd: Rd::Plus
        })
    );
}
