//! Tests.
ghost use Rattle.std.specs.Prelude.{◌≡◌, ◌⊎◌, ◌<◌, ℕ, IsTrue, get_or, length};
ghost use Rattle.std.specs.List.Sorted.{IsStrictlyIncreasing};

use crate::Line;
use std::alloc::Global;
use std::test::Fail;

// Whether each flip is above the one before it.
fn are_ascending(flips: &[u64]) -> bool
    ensures { IsTrue result → IsStrictlyIncreasing flips.now }
{
    for k in 1..flips.len() {
        if flips[k] <= flips[k - 1] {
            return false;
        }
    }
    true
}

// Whether a line does so, of which each tick has the delay, whether it is dead, the word, and what is received.
fn receives(
    alloc: Global,
    width: u32,
    flips: Vec<u64>,
    ticks: &[(u32, bool, u128, u128)],
) -> Result<bool, Fail>
    requires { (width ≡ 10) ⊎ (width ≡ 66) }
{
    if !are_ascending(&flips) {
        return Ok(false);
    }
    let mut line = Line::open(alloc, width, 100, 0, flips)
        .ok()
        .ok_or("memory")?;
    for (delay, dead, word, received) in ticks {
        if *delay > 100 || *word >= 1 << width {
            return Ok(false);
        }
        line.set_delay(*delay);
        line.set_dead(*dead);
        if line.step(*word) != *received {
            return Ok(false);
        }
    }
    Ok(true)
}

#[test]
fn delays_dead_ticks_and_flips(rt: HostRuntime) -> Result<(), Fail> {
    let alloc = rt.alloc();
    let table: [(bool, &[(u32, bool, u128, u128)]); 8] = [
        (false, &[(0, false, 0x2a5, 0x2a5), (0, false, 0x13c, 0x13c)]),
        (
            false,
            &[
                (3, false, 0x2a5, 0x054),
                (3, false, 0x13c, 0x2a7),
                (3, false, 0x3f0, 0x27e),
            ],
        ),
        (
            false,
            &[
                (10, false, 0x2a5, 0x000),
                (10, false, 0x13c, 0x2a5),
                (10, false, 0x3f0, 0x13c),
            ],
        ),
        (
            false,
            &[
                (25, false, 0x2a5, 0x000),
                (25, false, 0x13c, 0x000),
                (25, false, 0x3f0, 0x015),
                (25, false, 0x0f1, 0x0a9),
                (25, false, 0x2aa, 0x39f),
            ],
        ),
        (
            false,
            &[
                (3, false, 0x2a5, 0x054),
                (3, false, 0x13c, 0x2a7),
                (13, false, 0x3f0, 0x2a7),
                (13, false, 0x0f1, 0x27e),
                (13, false, 0x2aa, 0x01e),
            ],
        ),
        (
            false,
            &[
                (3, false, 0x2a5, 0x054),
                (3, true, 0x13c, 0x000),
                (3, true, 0x3f0, 0x000),
                (3, false, 0x0f1, 0x01e),
                (3, false, 0x2aa, 0x0d5),
            ],
        ),
        (
            true,
            &[
                (0, true, 0x2a5, 0x000),
                (0, false, 0x13c, 0x33c),
                (0, false, 0x3f0, 0x3f0),
                (0, false, 0x0f1, 0x0f5),
                (0, false, 0x2aa, 0x2aa),
            ],
        ),
        (
            true,
            &[
                (3, false, 0x2a5, 0x055),
                (3, false, 0x13c, 0x0a7),
                (3, false, 0x3f0, 0x27e),
                (3, false, 0x0f1, 0x01a),
                (3, false, 0x2aa, 0x0d5),
            ],
        ),
    ];
    for (has_flips, ticks) in table {
        let flips = if has_flips {
            vec![in alloc; 0u64, 9, 10, 37]?
        } else {
            vec![in alloc; 0u64; 0]?
        };
        assert!(rt; receives(alloc, 10, flips, ticks)?);
    }
    Ok(())
}

#[test]
fn words_of_66_bits(rt: HostRuntime) -> Result<(), Fail> {
    let alloc = rt.alloc();
    let flips = vec![in alloc; 0u64; 0]?;
    let ticks = [
        (67, false, 0x2_0123_4567_89ab_cdef, 0),
        (67, false, 0x1_fedc_ba98_7654_3210, 0x1_0091_a2b3_c4d5_e6f7),
        (67, false, 0x3_0f0f_0f0f_0f0f_0f0f, 0x2_ff6e_5d4c_3b2a_1908),
    ];
    assert!(rt; receives(alloc, 66, flips, &ticks)?);
    Ok(())
}

// Whether each word has ten bits.
fn are_tens(words: &[u16]) -> bool
    ensures { IsTrue result → (i : ℕ) → i < length words.now → get_or words.now i 0 < 1024 }
{
    words.iter().all(|word| *word < 1024)
}

// What a run of these words gives on a line of this delay.
fn run(alloc: Global, flips: Vec<u64>, delay: u32, words: [u16; 5]) -> Result<[u16; 5], Fail> {
    if !are_ascending(&flips) || !are_tens(&words) || delay > 100 {
        return Ok([0; 5]);
    }
    let mut words = words;
    let mut line = Line::open(alloc, 10, 100, delay, flips)
        .ok()
        .ok_or("memory")?;
    line.run(&mut words);
    Ok(words)
}

#[test]
fn a_run_gives_what_its_ticks_give(rt: HostRuntime) -> Result<(), Fail> {
    let alloc = rt.alloc();
    let words = [0x2a5, 0x13c, 0x3f0, 0x0f1, 0x2aa];
    for (delay, received) in [
        (0, [0x0a4, 0x33c, 0x3f0, 0x0f5, 0x2aa]),
        (3, [0x055, 0x0a7, 0x27e, 0x01a, 0x0d5]),
    ] {
        let flips = vec![in alloc; 0u64, 9, 10, 37]?;
        assert_eq!(rt; run(alloc, flips, delay, words)?, received, "{delay}");
    }
    let flips = vec![in alloc; 0u64; 0]?;
    let mut line = Line::open(alloc, 66, 100, 67, flips).ok().ok_or("memory")?;
    let mut blocks = [
        0x2_0123_4567_89ab_cdef,
        0x1_fedc_ba98_7654_3210,
        0x3_0f0f_0f0f_0f0f_0f0f,
    ];
    line.run_blocks(&mut blocks);
    let received = [0, 0x1_0091_a2b3_c4d5_e6f7, 0x2_ff6e_5d4c_3b2a_1908];
    assert_eq!(rt; blocks, received);
    Ok(())
}
