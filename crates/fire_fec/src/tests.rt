//! Worked values, and the plain search over all starts and masks.
ghost use Rattle.std.specs.Prelude.{◌≡◌, ◌+◌, ◌<◌};

use crate::{Fix, Steps, Trap, correct, correct_uncounted, parity};
use jesd_base::Poly;
use std::marker::Brand;
use std::sync::ledger::{Blank, Ledger};

const DIVISOR: u32 = 0x4220211;

// The received payload, the check, the answer and the corrected payload. A payload is given by three of its
// blocks, the others being 0.
struct Case {
    received: [(usize, u64); 3],
    check: u32,
    fix: Fix,
    corrected: [(usize, u64); 3],
}

const NOTHING: [(usize, u64); 3] = [(0, 0), (0, 0), (0, 0)];

const LAST: [(usize, u64); 3] = [(31, 1), (0, 0), (0, 0)];

const APART: [(usize, u64); 3] = [(0, 0x8000400000000000), (0, 0), (0, 0)];

const FRONT: [(usize, u64); 3] = [(0, 0xFF80000000000000), (0, 0), (0, 0)];

const ACROSS: [(usize, u64); 3] = [(0, 0xF), (1, 0xF800000000000000), (31, 1)];

#[rattlefmt::skip]
const CASES: [Case; 10] = [
    Case { received: NOTHING, check: 0, fix: Fix::Whole, corrected: NOTHING },
    Case { received: LAST, check: 0x220211, fix: Fix::Whole, corrected: LAST },
    Case { received: LAST, check: 0, fix: Fix::Fixed { start: 2047, mask: 0x100 }, corrected: NOTHING },
    Case { received: LAST, check: 0x2000000, fix: Fix::Fixed { start: 2047, mask: 0x180 }, corrected: NOTHING },
    Case { received: FRONT, check: 0, fix: Fix::Fixed { start: 0, mask: 0x1FF }, corrected: NOTHING },
    Case { received: ACROSS, check: 0x220211, fix: Fix::Fixed { start: 60, mask: 0x1FF }, corrected: LAST },
    // in the check, and at the end of the word
    Case { received: NOTHING, check: 0x808000, fix: Fix::Fixed { start: 2050, mask: 0x101 }, corrected: NOTHING },
    Case { received: NOTHING, check: 0xF, fix: Fix::Fixed { start: 2070, mask: 0x1E0 }, corrected: NOTHING },
    Case { received: NOTHING, check: 1, fix: Fix::Fixed { start: 2073, mask: 0x100 }, corrected: NOTHING },
    // bits 0 and 17
    Case { received: APART, check: 0, fix: Fix::Uncorrectable, corrected: APART },
];

fn payload_of(blocks: &[(usize, u64); 3]) -> [u64; 32] {
    let mut payload = [0; 32];
    for (at, block) in blocks {
        if *at < 32 {
            payload[*at] ^= *block;
        }
    }
    payload
}

#[test]
fn worked_values(rt: HostRuntime) {
    assert_eq!(rt; parity(&payload_of(&LAST)), 0x220211);
    for case in &CASES {
        let mut payload = payload_of(&case.received);
        let fix = correct_uncounted(&mut payload, case.check % 0x4000000);
        assert_eq!(rt; fix, case.fix, "at {}", case.check);
        assert_eq!(rt; payload, payload_of(&case.corrected), "at {}", case.check);
    }
}

#[test]
fn a_payload_with_its_parity(rt: HostRuntime) {
    let payload = payload_of(&ACROSS);
    let mut received = payload;
    let check = parity(&payload);
    let fix = correct_uncounted(&mut received, check);
    assert_eq!(rt; fix, Fix::Whole);
    assert_eq!(rt; received, payload);
}

// What is left of a payload that is taken in and shifted until it has nine bits, and the steps that were
// counted.
fn shifted<L: Ledger>(payload: &[u64; 32], steps: &mut Steps<L>) -> (u32, u32)
    ensures { steps.new ≡ steps.old + result.1 }
{
    let mut trap = Trap::new();
    for block in payload {
        trap.take(*block, steps);
    }
    for shifts in 0..2066 {
        if trap.value() < 512 {
            return (trap.value(), 32 + shifts);
        }
        trap.shift(steps);
    }
    (trap.value(), 32 + 2066)
}

// The same on a new ledger, and the answer to the payload with check 0.
fn shifted_and_corrected<L: Ledger>(payload: &[u64; 32], blank: Blank) -> (u32, u32, Fix)
    requires name { blank.name ≡ L.name }
    requires parts { (blank.parts ≡ L.parts) × (0 < blank.parts) }
{
    let mut steps = Steps::<L>::open(blank);
    let (rest, count) = shifted(payload, &mut steps);
    let mut received = *payload;
    (rest, count, correct(&mut received, 0, &mut steps))
}

#[test]
fn steps_of_corrections(rt: HostRuntime) {
    for (received, rest, count, fix) in [
        (NOTHING, 0, 32, Fix::Whole),
        (
            FRONT,
            0x1FF,
            32 + 2065,
            Fix::Fixed {
                start: 0,
                mask: 0x1FF,
            },
        ),
    ] {
        let payload = payload_of(&received);
        let (left, steps, answer) = shifted_and_corrected::<Brand>(&payload, Blank::new(1));
        assert_eq!(rt; left, rest);
        assert_eq!(rt; steps, count);
        assert_eq!(rt; answer, fix);
    }
}

// The remainders of x^0 to x^2073.
fn powers() -> [u32; 2074] {
    let mut powers = [0; 2074];
    let mut power: u32 = 1;
    for slot in powers.iter_mut() {
        *slot = power;
        power <<= 1;
        if power >= 0x4000000 {
            power ^= DIVISOR;
        }
    }
    powers
}

// The remainder of a mask at a place, where it fits.
fn remainder_of(powers: &[u32; 2074], start: usize, mask: u16) -> Option<u32>
    requires { start < 2074 }
{
    let mut rest = 0;
    for bit in 0..9 {
        if (mask >> (8 - bit)) % 2 == 1 {
            let place = start + bit;
            if place >= 2074 {
                return None;
            }
            rest ^= powers[2073 - place];
        }
    }
    Some(rest)
}

fn mask_at(powers: &[u32; 2074], start: usize, rest: u32) -> Option<u16>
    requires { start < 2074 }
{
    (256..512).find(|mask| remainder_of(powers, start, *mask) == Some(rest))
}

// The least start, then the least mask, that explains a word of this remainder.
fn search(powers: &[u32; 2074], rest: u32) -> Fix {
    if rest == 0 {
        return Fix::Whole;
    }
    for start in 0..2074 {
        if let Some(mask) = mask_at(powers, start as usize, rest) {
            return Fix::Fixed { start, mask };
        }
    }
    Fix::Uncorrectable
}

// A payload and its check.
#[derive(Clone, Copy)]
struct Word {
    payload: [u64; 32],
    check: u32,
}

impl Word {
    fn remainder(&self) -> u32 {
        let mut bits = [false; 2074];
        for (i, bit) in bits.iter_mut().enumerate() {
            *bit = if i < 2048 {
                (self.payload[i / 64] >> (63 - i % 64)) % 2 == 1
            } else {
                (self.check >> (2073 - i)) % 2 == 1
            };
        }
        Poly::rem(&bits, DIVISOR)
    }

    fn invert(&mut self, start: usize, mask: u16)
        requires { start < 2074 }
    {
        for bit in 0..9 {
            let place = start + bit;
            if (mask >> (8 - bit)) % 2 == 1 && place < 2074 {
                if place < 2048 {
                    self.payload[place / 64] ^= 1 << (63 - place % 64);
                } else {
                    self.check ^= 1 << (2073 - place);
                }
            }
        }
    }
}

// Two masks each, the second often 0. The last four are no burst.
const BURSTS: [[(usize, u16); 2]; 14] = [
    [(0, 0x100), (0, 0)],
    [(55, 0x1FF), (0, 0)],
    [(56, 0x1FF), (0, 0)],
    [(63, 0x101), (0, 0)],
    [(1000, 0x155), (0, 0)],
    [(2039, 0x1FF), (0, 0)],
    [(2043, 0x1FF), (0, 0)],
    [(2048, 0x181), (0, 0)],
    [(2065, 0x101), (0, 0)],
    [(2067, 0x1FC), (0, 0)],
    [(100, 0x100), (109, 0x100)],
    [(0, 0x100), (17, 0x100)],
    [(3, 0x1FF), (511, 0x1FF)],
    [(700, 0x123), (2060, 0x180)],
];

#[test]
fn answers_as_the_plain_search(rt: HostRuntime) {
    let mut payload = [0; 32];
    for (i, block) in payload.iter_mut().enumerate() {
        *block = 0x9E3779B97F4A7C15u64.wrapping_mul(i as u64 + 1);
    }
    let check = parity(&payload);
    let sent = Word { payload, check };
    assert_eq!(rt; sent.remainder(), 0);
    let powers = powers();
    for [(first, mask), (second, more)] in &BURSTS {
        let mut word = sent;
        word.invert(*first % 2074, *mask);
        word.invert(*second % 2074, *more);
        let want = search(&powers, word.remainder());
        let mut payload = word.payload;
        assert_eq!(rt;
            correct_uncounted(&mut payload, word.check % 0x4000000),
            want,
            "at {first}"
        );
        let corrected = if *more == 0 {
            sent.payload
        } else {
            word.payload
        };
        assert_eq!(rt; payload, corrected, "at {first}");
    }
}
