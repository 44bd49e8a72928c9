//! Tests.
ghost use Rattle.std.specs.Prelude.{ℕ, ◌<◌, ◌≤◌, ◌^◌, IsTrue, length, slice_index};

use crate::Layout;
use link_params::{Mode, Params};
use std::alloc::Global;
use std::test::Fail;

/// An 8b/10b link of one lane, one converter and one sample of eight bits in a frame.
fn small() -> Params {
    Params {
        mode: Mode::B,
        l: 1,
        m: 1,
        f: 1,
        s: 1,
        n: 8,
        np: 8,
        cs: 0,
        hd: false,
        scr: false,
        k: 17,
        e: 0,
    }
}

/// Whether words have no more than so many bits.
fn are_below(words: &[u32], bits: u32) -> bool
    requires { bits ≤ 32 }
    ensures { IsTrue result → (r : ℕ) → r < length words.now → slice_index words.now r < 2 ^ bits }
{
    let limit = 1u64 << bits;
    words.iter().all(|w| u64::from(*w) < limit)
}

/// Whether these words are laid out as these octets, and read from them.
fn goes_both_ways(
    alloc: Global,
    params: &Params,
    words: &[u32],
    octets: &[u8],
) -> Result<bool, Fail> {
    let shape = params.check().ok().ok_or("legal")?;
    if words.len() != shape.frame_words() as usize
        || octets.len() != (shape.lanes() * shape.frame_octets()) as usize
        || !are_below(words, shape.word_bits())
    {
        return Ok(false);
    }
    let layout = Layout::new(&shape);
    let mut out = vec![in alloc; 0xffu8; octets.len()]?;
    layout.map(words, &mut out);
    let mut read = vec![in alloc; 0xffu32; words.len()]?;
    layout.unmap(octets, &mut read);
    Ok(out.as_slice() == octets && read.as_slice() == words)
}

#[test]
fn lays_out_and_reads_back(rt: HostRuntime) -> Result<(), Fail> {
    let table: [(Params, &[u32], &[u8]); 7] = [
        (
            Params {
                f: 8,
                s: 5,
                n: 12,
                np: 12,
                k: 3,
                ..small()
            },
            &[0x123, 0x456, 0x789, 0xabc, 0xdef],
            &[0x12, 0x34, 0x56, 0x78, 0x9a, 0xbc, 0xde, 0xf0],
        ),
        (
            Params {
                l: 2,
                n: 16,
                np: 16,
                hd: true,
                ..small()
            },
            &[0xa55a],
            &[0xa5, 0x5a],
        ),
        // 14 bits, 1 control bit and a tail bit on each of two lanes
        (
            Params {
                l: 2,
                m: 2,
                f: 2,
                n: 14,
                np: 16,
                cs: 1,
                k: 9,
                ..small()
            },
            &[0x7fff, 0x0001],
            &[0xff, 0xfe, 0x00, 0x02],
        ),
        // words of five bits, three used: 001 00, 010 00, 111 00, then a tail bit
        (
            Params {
                f: 2,
                s: 3,
                n: 3,
                np: 5,
                k: 9,
                ..small()
            },
            &[1, 2, 7],
            &[0b0010_0010, 0b0011_1000],
        ),
        // words of seven bits, six used: five of the sample, a control bit, a tail bit
        (
            Params {
                m: 2,
                f: 7,
                s: 4,
                n: 5,
                np: 7,
                cs: 1,
                k: 3,
                ..small()
            },
            &[0x01, 0x3f, 0x20, 0x15, 0x2a, 0x00, 0x33, 0x0c],
            &[0x05, 0xfa, 0x02, 0xaa, 0x80, 0x33, 0x18],
        ),
        // words of one bit
        (
            Params {
                f: 2,
                s: 11,
                n: 1,
                np: 1,
                k: 9,
                ..small()
            },
            &[1, 0, 1, 1, 0, 0, 1, 0, 1, 1, 1],
            &[0b1011_0010, 0b1110_0000],
        ),
        // a 64b/66b link with HD: word 1 begins on lane 0 and ends on lane 1, and lane 3 has tail bits alone
        (
            Params {
                mode: Mode::CCrc,
                l: 4,
                f: 2,
                s: 3,
                n: 12,
                np: 12,
                hd: true,
                scr: true,
                k: 0,
                e: 1,
                ..small()
            },
            &[0x123, 0x456, 0x789],
            &[0x12, 0x34, 0x56, 0x78, 0x90, 0x00, 0x00, 0x00],
        ),
    ];
    for (at, (params, words, octets)) in table.iter().enumerate() {
        assert!(rt;
            goes_both_ways(rt.alloc(), params, words, octets)?,
            "at {at}"
        );
    }
    Ok(())
}

/// The next state of a linear congruential generator.
fn next(state: u64) -> u64 {
    state
        .wrapping_mul(6_364_136_223_846_793_005)
        .wrapping_add(1_442_695_040_888_963_407)
}

/// Fills words with the top bits of the states that follow a seed.
fn fill(words: &mut [u32], bits: u32, seed: u64)
    requires some { 0 < bits }
    requires few { bits ≤ 32 }
{
    let mut state = seed;
    for word in words.iter_mut() {
        state = next(state);
        *word = (state >> 32) as u32 >> (32 - bits);
    }
}

/// Whether the words of one frame are read back.
fn frame_comes_back(alloc: Global, params: &Params, seed: u64) -> Result<bool, Fail> {
    let shape = params.check().ok().ok_or("legal")?;
    let mut words = vec![in alloc; 0u32; shape.frame_words() as usize]?;
    fill(&mut words, shape.word_bits(), seed);
    if !are_below(&words, shape.word_bits()) {
        return Ok(false);
    }
    let layout = Layout::new(&shape);
    let size = (shape.lanes() * shape.frame_octets()) as usize;
    let mut octets = vec![in alloc; 0xffu8; size]?;
    layout.map(&words, &mut octets);
    let mut read = vec![in alloc; 0xffffffffu32; words.len()]?;
    layout.unmap(&octets, &mut read);
    Ok(read == words)
}

/// Whether four frames that are laid out at once are read back one by one.
fn frames_come_back(alloc: Global, params: &Params, seed: u64) -> Result<bool, Fail> {
    let shape = params.check().ok().ok_or("legal")?;
    let size = (shape.lanes() * shape.frame_octets()) as usize;
    let count = shape.frame_words() as usize;
    let mut words = vec![in alloc; 0u32; 4 * count]?;
    fill(&mut words, shape.word_bits(), seed);
    if !are_below(&words, shape.word_bits()) {
        return Ok(false);
    }
    let layout = Layout::new(&shape);
    let mut octets = vec![in alloc; 0xffu8; 4 * size]?;
    layout.map_frames(&words, &mut octets);
    let mut read = vec![in alloc; 0xffffffffu32; count]?;
    let mut all = true;
    for frame in 0..4 {
        layout.unmap(&octets[frame * size..(frame + 1) * size], &mut read);
        all &= read.as_slice() == &words[frame * count..(frame + 1) * count];
    }
    Ok(all)
}

/// A link of so many lanes and converters, octets and samples of a frame.
fn sized(l: u32, m: u32, f: u32, s: u32) -> Params {
    Params {
        l,
        m,
        f,
        s,
        ..small()
    }
}

/// The same link with words of so many bits, of which so many are the sample's and control bits.
fn worded(link: Params, np: u32, n: u32, cs: u32, hd: bool) -> Params {
    Params {
        np,
        n,
        cs,
        hd,
        ..link
    }
}

#[test]
fn random_words_come_back(rt: HostRuntime) -> Result<(), Fail> {
    let table: [Params; 10] = [
        worded(sized(1, 1, 2, 11), 1, 1, 0, false),
        worded(sized(2, 2, 2, 5), 3, 2, 1, false),
        worded(sized(1, 2, 7, 4), 7, 5, 1, false),
        worded(sized(4, 4, 2, 2), 8, 8, 0, false),
        worded(sized(3, 1, 1, 2), 11, 9, 1, true),
        worded(sized(2, 2, 6, 3), 16, 12, 2, false),
        worded(sized(3, 4, 3, 1), 17, 14, 3, true),
        worded(sized(3, 3, 9, 3), 24, 20, 1, false),
        worded(sized(4, 5, 15, 3), 31, 28, 3, true),
        worded(sized(2, 3, 6, 1), 32, 32, 0, true),
    ];
    for (at, params) in table.iter().enumerate() {
        let seed = 4 * at as u64;
        assert!(rt; frame_comes_back(rt.alloc(), params, seed)?, "at {at}");
        assert!(rt; frames_come_back(rt.alloc(), params, seed)?, "at {at}");
    }
    Ok(())
}
